// Angular rows: the limits about an axis, and the row of three dimensions with its softness.
ghost use Rattle.std.specs.Prelude.{◌≡◌};
ghost use Rattle.constraint.specs.Angular as D;
ghost use Rattle.constraint.specs.Steps as Steps;

use crate::soft::{LimitSoftness, SoftBias, limit_bias, limit_sum, soft_impulse_of};
use crate::velocity::{InvMasses, Velocities, apply_angular, apply_axial, apply_axial_flipped};
use math_functions::matrix::mul_mv;
use math_functions::quat::{get_swing_angle, get_twist_angle};
use math_functions::types::{Matrix3, Quat, Vec3, nan};
use math_functions::vector::{add, dot, sub};

// What a row leaves: its impulse, a number or a vector, and the velocities.
#[derive(Clone, Copy)]
pub struct Row<V> {
    pub impulse: V,
    pub velocities: Velocities,
}

// What a pair of limit rows leaves.
#[derive(Clone, Copy)]
pub struct LimitRows {
    pub lower_impulse: f32,
    pub upper_impulse: f32,
    pub velocities: Velocities,
}

// The axis that a row of one dimension works about, and the effective mass about it.
#[derive(Clone, Copy)]
pub struct RowAxis {
    pub axis: Vec3,
    pub mass: f32,
}

pub fn row_axis(axis: Vec3, mass: f32) -> RowAxis
    ensures { result ≡ D.row_axis axis mass }
{
    RowAxis { axis, mass }
}

// A limit about an axis, with a lower and an upper angle: what its two rows are worked with. The angle
// is the twist angle at the solve's start, or NaN where the rows are not worked.
#[derive(Clone, Copy)]
pub struct TwistLimit {
    pub angle: f32,
    pub lower_angle: f32,
    pub upper_angle: f32,
    pub about: RowAxis,
    pub lower_impulse: f32,
    pub upper_impulse: f32,
}

// A row with a switch is worked where that is on, unless the rotation is fixed.
#[tactic(auto, unfolding(crate::specs::Angular::is_worked))]
pub fn is_worked(enabled: bool, fixed_rotation: bool) -> bool
    ensures { result ≡ D.is_worked enabled fixed_rotation }
{
    enabled && !fixed_rotation
}

// The angle of a twist limit and of the cone where its rows are worked, and NaN where not: what they are
// handed, and what a solve stores. It waits for no velocity, so a spherical solve takes the cone's a row
// ahead. (Two functions: to hand over which angle would take a closure for one call.)
#[tactic(auto, unfolding(crate::specs::Angular::twist_angle_if))]
pub fn twist_angle_if(worked: bool, rel_q: Quat) -> f32
    ensures { result ≡ D.twist_angle_if worked rel_q }
{
    if worked {
        return get_twist_angle(rel_q);
    }
    nan()
}

#[tactic(auto, unfolding(crate::specs::Angular::swing_angle_if))]
pub fn swing_angle_if(worked: bool, rel_q: Quat) -> f32
    ensures { result ≡ D.swing_angle_if worked rel_q }
{
    if worked {
        return get_swing_angle(rel_q);
    }
    nan()
}

// The sum of a lower limit's row, whose impulse turns B up about the axis.
#[tactic(auto, unfolding(crate::specs::Steps::lower_limit_sum))]
pub fn lower_limit_sum(s: SoftBias<f32>, about: RowAxis, old_impulse: f32, v: Velocities) -> f32
    ensures { result ≡ Steps.lower_limit_sum s about.mass about.axis old_impulse v }
{
    let cdot = dot(sub(v.w_b, v.w_a), about.axis);
    limit_sum(s, about.mass, cdot, old_impulse)
}

// The sum of an upper limit's row, or of the cone's: sign flipped on cdot. The two stay two: cdot is
// half of each, and negated in place of subtracted the other way its zeros would have another sign.
#[tactic(auto, unfolding(crate::specs::Steps::upper_limit_sum))]
pub fn upper_limit_sum(s: SoftBias<f32>, about: RowAxis, old_impulse: f32, v: Velocities) -> f32
    ensures { result ≡ Steps.upper_limit_sum s about.mass about.axis old_impulse v }
{
    let cdot = dot(sub(v.w_a, v.w_b), about.axis);
    limit_sum(s, about.mass, cdot, old_impulse)
}

// Such a row that brings its impulse to a value: sign flipped on what is applied.
#[tactic(auto, unfolding(crate::specs::Steps::upper_row_to))]
pub fn upper_row_to(
    impulse: f32,
    old_impulse: f32,
    axis: Vec3,
    m: InvMasses,
    v: Velocities,
) -> Row<f32>
    ensures { result ≡ Steps.upper_row_to impulse old_impulse axis m v }
{
    let velocities = apply_axial_flipped(m, impulse - old_impulse, axis, v);
    Row {
        impulse,
        velocities,
    }
}

// A pair of limit rows, of the lower limit's impulse and the upper limit's row, which comes second.
pub fn limit_rows(lower_impulse: f32, upper: Row<f32>) -> LimitRows
    ensures { result ≡ D.limit_rows lower_impulse upper.impulse upper.velocities }
{
    let velocities = upper.velocities;
    LimitRows {
        lower_impulse,
        upper_impulse: upper.impulse,
        velocities,
    }
}

// The rows of a twist limit that are worked. A limit that does not push is passed by a branch, which
// the processor predicts, so that what follows need not wait for the sum.
#[inline(always)]
fn worked_limit_rows(l: TwistLimit, soft: LimitSoftness, m: InvMasses, v: Velocities) -> LimitRows
    ensures { result ≡ Steps.worked_limit_rows l soft.softness soft.inv_h soft.use_bias m v }
{
    let axis = l.about.axis;
    let old_lower = l.lower_impulse;
    let old_upper = l.upper_impulse;
    let lower_bias = limit_bias(l.angle - l.lower_angle, soft);
    let lower = lower_limit_sum(lower_bias, l.about, old_lower, v);
    if lower > 0.0 {
        let v = apply_axial(m, lower - old_lower, axis, v);
        let upper_bias = limit_bias(l.upper_angle - l.angle, soft);
        let upper = upper_limit_sum(upper_bias, l.about, old_upper, v);
        if upper > 0.0 {
            return limit_rows(lower, upper_row_to(upper, old_upper, axis, m, v));
        }
        return limit_rows(lower, upper_row_to(0.0, old_upper, axis, m, v));
    }
    let v = apply_axial(m, 0.0 - old_lower, axis, v);
    let upper_bias = limit_bias(l.upper_angle - l.angle, soft);
    let upper = upper_limit_sum(upper_bias, l.about, old_upper, v);
    if upper > 0.0 {
        return limit_rows(0.0, upper_row_to(upper, old_upper, axis, m, v));
    }
    limit_rows(0.0, upper_row_to(0.0, old_upper, axis, m, v))
}

// The rows of a twist limit: the lower, then the upper, both at one angle.
#[inline(always)]
#[tactic(auto, unfolding(crate::specs::Angular::twist_limit_rows, crate::specs::Steps::worked_limit_rows))]
pub fn twist_limit_rows(
    worked: bool,
    l: TwistLimit,
    soft: LimitSoftness,
    m: InvMasses,
    v: Velocities,
) -> LimitRows
    ensures { result ≡ D.twist_limit_rows worked l soft.softness soft.inv_h soft.use_bias m v }
{
    if !worked {
        return LimitRows {
            lower_impulse: l.lower_impulse,
            upper_impulse: l.upper_impulse,
            velocities: v,
        };
    }
    worked_limit_rows(l, soft, m, v)
}

// The angular row: weld's, and spherical's spring.
#[tactic(auto, using(crate::proofs::Impulse::vector_impulse), unfolding(crate::specs::Angular::angular_row))]
pub fn angular_row(
    s: SoftBias<Vec3>,
    mass: Matrix3,
    old_impulse: Vec3,
    m: InvMasses,
    v: Velocities,
) -> Row<Vec3>
    ensures { result ≡ D.angular_row s mass old_impulse m v }
{
    let cdot = sub(v.w_b, v.w_a);
    let b = mul_mv(mass, add(cdot, s.bias));
    let delta_impulse = soft_impulse_of(s, b, old_impulse);
    let impulse = add(old_impulse, delta_impulse);
    let velocities = apply_angular(m, delta_impulse, v);
    Row {
        impulse,
        velocities,
    }
}
