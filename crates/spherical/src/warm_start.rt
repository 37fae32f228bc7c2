// The warm start of a spherical joint.
ghost use Rattle.std.specs.Prelude.{◌≡◌};
ghost use Rattle.spherical.specs.Spherical as D;

use constraint::velocity::{Velocities, anchors_of, apply_warm, inv_masses_of, velocities_of};
use math_functions::vector::{add, mul_add, mul_sub};
use records::body::BodyState;
use records::joint::{JointBase, SphericalJoint};

#[tactic(auto, unfolding(crate::specs::Spherical::warm_start_spherical))]
pub fn warm_start_spherical(
    base: JointBase,
    joint: SphericalJoint,
    state_a: BodyState,
    state_b: BodyState,
) -> Velocities
    ensures { result ≡ D.warm_start_spherical base joint state_a state_b }
{
    let anchors = anchors_of(joint.frame_a, joint.frame_b, state_a, state_b);

    let mut angular_impulse = add(joint.spring_impulse, joint.motor_impulse);
    angular_impulse = mul_sub(angular_impulse, joint.swing_impulse, joint.swing_axis);
    angular_impulse = mul_add(
        angular_impulse,
        joint.lower_twist_impulse - joint.upper_twist_impulse,
        joint.twist_jacobian,
    );

    let m = inv_masses_of(base);
    let v = velocities_of(state_a, state_b);
    apply_warm(m, anchors, joint.linear_impulse, angular_impulse, v)
}
