// The rows of a spherical joint's solve. A row that is not worked leaves its impulse and the
// velocities as they were. The twist limit's rows and the point row are those of every kind.
ghost use Rattle.std.specs.Prelude.{◌≡◌};
ghost use Rattle.spherical.specs.Spherical as D;
ghost use Rattle.spherical.specs.Steps as Steps;

use constraint::angular::{Row, RowAxis, angular_row, upper_limit_sum, upper_row_to};
use constraint::rotation::{RelativeRotation, rotation_error};
use constraint::soft::{LimitSoftness, limit_bias, soft_bias};
use constraint::velocity::{InvMasses, Velocities, apply_angular};
use math_functions::matrix::mul_mv;
use math_functions::types::{Matrix3, Quat, Vec3};
use math_functions::vector::{add, length, mul_sv, neg, sub};
use solver::Softness;

// The spring pulls the rotation of frame B relative to frame A to the target.
#[tactic(auto, unfolding(crate::specs::Spherical::spring_row))]
pub fn spring_row(
    worked: bool,
    rotation: RelativeRotation,
    target_rotation: Quat,
    softness: Softness,
    mass: Matrix3,
    old_impulse: Vec3,
    m: InvMasses,
    v: Velocities,
) -> Row<Vec3>
    ensures { result ≡ D.spring_row worked rotation target_rotation softness mass old_impulse m v }
{
    if !worked {
        return Row {
            impulse: old_impulse,
            velocities: v,
        };
    }
    let c = rotation_error(rotation, target_rotation);
    angular_row(soft_bias(softness, c), mass, old_impulse, m, v)
}

// The motor's impulse before it is scaled.
#[tactic(auto, unfolding(crate::specs::Spherical::motor_sum))]
fn motor_sum(motor_velocity: Vec3, mass: Matrix3, old_impulse: Vec3, v: Velocities) -> Vec3
    ensures { result ≡ D.motor_sum motor_velocity mass old_impulse v }
{
    let cdot = sub(v.w_b, v.w_a);
    let lambda = neg(mul_mv(mass, sub(cdot, motor_velocity)));
    add(old_impulse, lambda)
}

// What scales an impulse of the length len to max_impulse where it is longer, and else to itself.
#[tactic(auto, unfolding(crate::specs::Steps::limit_scale))]
fn limit_scale(len: f32, max_impulse: f32) -> f32
    ensures { result ≡ Steps.limit_scale len max_impulse }
{
    if len > max_impulse {
        max_impulse / len
    } else {
        1.0
    }
}

// The impulse, scaled where it is longer than max_impulse. The choice is of the scale, one number,
// where the Rust's is of the vector: one times a number is that number.
fn limit_length(impulse: Vec3, max_impulse: f32) -> Vec3
    ensures { result ≡ D.limit_length impulse max_impulse }
{
    mul_sv(limit_scale(length(impulse), max_impulse), impulse)
}

// The motor drives the relative angular velocity to the motor's.
#[tactic(auto, unfolding(crate::specs::Spherical::motor_row))]
pub fn motor_row(
    worked: bool,
    motor_velocity: Vec3,
    max_motor_torque: f32,
    h: f32,
    mass: Matrix3,
    old_impulse: Vec3,
    m: InvMasses,
    v: Velocities,
) -> Row<Vec3>
    ensures { result ≡ D.motor_row worked motor_velocity max_motor_torque h mass old_impulse m v }
{
    if !worked {
        return Row {
            impulse: old_impulse,
            velocities: v,
        };
    }
    let sum = motor_sum(motor_velocity, mass, old_impulse, v);
    let impulse = limit_length(sum, max_motor_torque * h);
    let velocities = apply_angular(m, sub(impulse, old_impulse), v);
    Row {
        impulse,
        velocities,
    }
}

// The cone: an upper limit of the swing angle.
#[tactic(auto, unfolding(crate::specs::Spherical::cone_row))]
pub fn cone_row(
    worked: bool,
    swing_angle: f32,
    cone_angle: f32,
    soft: LimitSoftness,
    about: RowAxis,
    old_impulse: f32,
    m: InvMasses,
    v: Velocities,
) -> Row<f32>
    ensures { result ≡ D.cone_row worked swing_angle cone_angle soft.softness soft.inv_h soft.use_bias about.mass about.axis old_impulse m v }
{
    if !worked {
        return Row {
            impulse: old_impulse,
            velocities: v,
        };
    }
    let c = cone_angle - swing_angle;
    let s = limit_bias(c, soft);
    let sum = upper_limit_sum(s, about, old_impulse, v);
    // a branch, as in the twist rows
    if sum > 0.0 {
        return upper_row_to(sum, old_impulse, about.axis, m, v);
    }
    upper_row_to(0.0, old_impulse, about.axis, m, v)
}
