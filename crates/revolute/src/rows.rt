// The rows of the revolute joint: spring, motor, and the two perpendicular axes. Its limit rows are
// those of every twist limit, and its point row is that of every kind.
ghost use Rattle.std.specs.Prelude.{◌≡◌};
ghost use Rattle.revolute.specs.Revolute as D;

use crate::prepare::{PerpAxes, perp_axes};
use crate::warm_start::perp_angular_impulse;
use constraint::angular::{Row, RowAxis};
use constraint::rotation::RelativeRotation;
use constraint::soft::{SoftBias, rigid, soft_bias, soft_impulse, soft_impulse_of};
use constraint::velocity::{InvMasses, Velocities, apply_angular, apply_axial};
use math_functions::internal::add2;
use math_functions::mark::Mark;
use math_functions::matrix::{Mat2, add_mm, mul_mv, solve2};
use math_functions::quat::get_twist_angle;
use math_functions::scalar::clamp_float;
use math_functions::types::{Matrix3, Quat, Vec2, Vec3};
use math_functions::vector::{dot, sub};
use solver::Softness;

// What the perpendicular row leaves: its impulse, the two axes that a warm start applies it about,
// the velocities, and the mark of its matrix.
#[derive(Clone, Copy)]
pub struct PerpRow {
    pub perp_impulse: Vec2,
    pub axes: PerpAxes,
    pub velocities: Velocities,
    pub mark: Option<Mark>,
}

// The spring pulls the twist angle to the target angle.
#[tactic(auto, unfolding(crate::specs::Revolute::spring_row))]
pub fn spring_row(
    worked: bool,
    rel_q: Quat,
    target_angle: f32,
    softness: Softness,
    about: RowAxis,
    old_impulse: f32,
    m: InvMasses,
    v: Velocities,
) -> Row<f32>
    ensures { result ≡ D.spring_row worked rel_q target_angle softness about.mass about.axis old_impulse m v }
{
    if !worked {
        return Row {
            impulse: old_impulse,
            velocities: v,
        };
    }
    // Get the substep relative rotation
    let angle = get_twist_angle(rel_q);
    let s = soft_bias(softness, angle - target_angle);
    let cdot = dot(sub(v.w_b, v.w_a), about.axis);
    let delta_impulse = soft_impulse(s, about.mass, cdot, old_impulse);
    let velocities = apply_axial(m, delta_impulse, about.axis, v);
    Row {
        impulse: old_impulse + delta_impulse,
        velocities,
    }
}

// The motor's impulse before it is clamped.
#[tactic(auto, unfolding(crate::specs::Revolute::motor_sum))]
fn motor_sum(motor_speed: f32, about: RowAxis, old_impulse: f32, v: Velocities) -> f32
    ensures { result ≡ D.motor_sum motor_speed about.mass about.axis old_impulse v }
{
    let cdot = dot(sub(v.w_b, v.w_a), about.axis) - motor_speed;
    let delta_impulse = -about.mass * cdot;
    old_impulse + delta_impulse
}

// The motor drives the bodies to the motor speed, with no more than its torque in each direction.
#[tactic(auto, unfolding(crate::specs::Revolute::motor_row))]
pub fn motor_row(
    worked: bool,
    motor_speed: f32,
    max_motor_torque: f32,
    h: f32,
    about: RowAxis,
    old_impulse: f32,
    m: InvMasses,
    v: Velocities,
) -> Row<f32>
    ensures { result ≡ D.motor_row worked motor_speed max_motor_torque h about.mass about.axis old_impulse m v }
{
    if !worked {
        return Row {
            impulse: old_impulse,
            velocities: v,
        };
    }
    let sum = motor_sum(motor_speed, about, old_impulse, v);
    let max_impulse = max_motor_torque * h;
    let impulse = clamp_float(sum, -max_impulse, max_impulse);
    let velocities = apply_axial(m, impulse - old_impulse, about.axis, v);
    Row {
        impulse,
        velocities,
    }
}

// The bias of the perpendicular row.
#[tactic(auto, unfolding(crate::specs::Revolute::perp_bias))]
fn perp_bias(use_bias: bool, softness: Softness, rel_q: Quat) -> SoftBias<Vec2>
    ensures { result ≡ D.perp_bias use_bias softness rel_q }
{
    if use_bias {
        let c = Vec2 {
            x: rel_q.v.x,
            y: rel_q.v.y,
        };
        soft_bias(softness, c)
    } else {
        rigid()
    }
}

// Collinearity constraint as 2-by-2
#[tactic(auto, unfolding(crate::specs::Revolute::perp_mass))]
fn perp_mass(inv_inertia_sum: Matrix3, axes: PerpAxes) -> Mat2
    ensures { result ≡ D.perp_mass inv_inertia_sum axes.x axes.y }
{
    let inv_inertia_y = mul_mv(inv_inertia_sum, axes.y);
    let kxx = dot(axes.x, mul_mv(inv_inertia_sum, axes.x));
    let kyy = dot(axes.y, inv_inertia_y);
    let kxy = dot(axes.x, inv_inertia_y);
    Mat2 {
        cx: Vec2 { x: kxx, y: kxy },
        cy: Vec2 { x: kxy, y: kyy },
    }
}

// Collinearity constraint, once its two axes are known.
#[tactic(auto, unfolding(crate::specs::Revolute::collinear_row))]
fn collinear_row(
    s: SoftBias<Vec2>,
    axes: PerpAxes,
    old_impulse: Vec2,
    m: InvMasses,
    v: Velocities,
) -> PerpRow
    ensures { result ≡ D.collinear_row s axes.x axes.y old_impulse m v }
{
    let k = perp_mass(add_mm(m.i_a, m.i_b), axes);
    let w_rel = sub(v.w_b, v.w_a);
    let cdot = Vec2 {
        x: dot(w_rel, axes.x),
        y: dot(w_rel, axes.y),
    };
    let sol = solve2(k, add2(cdot, s.bias));
    let delta_impulse = soft_impulse_of(s, sol.value, old_impulse);
    let perp_impulse = add2(old_impulse, delta_impulse);
    let angular_impulse = perp_angular_impulse(delta_impulse, axes);
    let velocities = apply_angular(m, angular_impulse, v);
    let mark = Some(sol.mark);
    PerpRow {
        perp_impulse,
        axes,
        velocities,
        mark,
    }
}

// Collinearity constraint. A row that is not worked leaves the two axes as they were.
#[tactic(auto, unfolding(crate::specs::Revolute::perp_row))]
pub fn perp_row(
    worked: bool,
    rotation: RelativeRotation,
    softness: Softness,
    use_bias: bool,
    old_axes: PerpAxes,
    old_impulse: Vec2,
    m: InvMasses,
    v: Velocities,
) -> PerpRow
    ensures { result ≡ D.perp_row worked rotation softness use_bias old_axes.x old_axes.y old_impulse m v }
{
    if !worked {
        return PerpRow {
            perp_impulse: old_impulse,
            axes: old_axes,
            velocities: v,
            mark: None,
        };
    }
    let s = perp_bias(use_bias, softness, rotation.rel_q);
    let axes = perp_axes(rotation.quat_a, rotation.rel_q);
    collinear_row(s, axes, old_impulse, m, v)
}
