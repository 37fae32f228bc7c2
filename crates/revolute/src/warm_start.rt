// The warm start of a revolute joint by value.
ghost use Rattle.std.specs.Prelude.{◌≡◌};
ghost use Rattle.revolute.specs.Revolute as D;

use crate::prepare::PerpAxes;
use constraint::velocity::{Velocities, anchors_of, apply_warm, inv_masses_of, velocities_of};
use math_functions::types::{Vec2, Vec3};
use math_functions::vector::{add, mul_add, mul_sv};
use records::body::BodyState;
use records::joint::{JointBase, RevoluteJoint};

// The angular impulse of an impulse about the two perpendicular axes.
#[tactic(auto, unfolding(crate::specs::Revolute::perp_angular_impulse))]
pub fn perp_angular_impulse(impulse: Vec2, axes: PerpAxes) -> Vec3
    ensures { result ≡ D.perp_angular_impulse impulse axes.x axes.y }
{
    add(mul_sv(impulse.x, axes.x), mul_sv(impulse.y, axes.y))
}

// The angular impulse of all rows but the point row.
#[tactic(auto, unfolding(crate::specs::Revolute::warm_angular_impulse))]
fn warm_angular_impulse(joint: RevoluteJoint) -> Vec3
    ensures { result ≡ D.warm_angular_impulse joint }
{
    let axial_impulse = joint.spring_impulse + joint.motor_impulse + joint.lower_impulse
        - joint.upper_impulse;
    let x = joint.perp_axis_x;
    let y = joint.perp_axis_y;
    let angular_impulse = perp_angular_impulse(joint.perp_impulse, PerpAxes { x, y });
    mul_add(angular_impulse, axial_impulse, joint.rotation_axis_z)
}

// The velocities after the impulses that the joint has kept.
#[tactic(auto, unfolding(crate::specs::Revolute::warm_start_revolute))]
pub fn warm_start_revolute(
    base: JointBase,
    joint: RevoluteJoint,
    state_a: BodyState,
    state_b: BodyState,
) -> Velocities
    ensures { result ≡ D.warm_start_revolute base joint state_a state_b }
{
    let m = inv_masses_of(base);
    let v = velocities_of(state_a, state_b);
    let anchors = anchors_of(joint.frame_a, joint.frame_b, state_a, state_b);
    let angular_impulse = warm_angular_impulse(joint);
    apply_warm(m, anchors, joint.linear_impulse, angular_impulse, v)
}
