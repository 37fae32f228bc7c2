// The warm start of a weld joint by value.
ghost use Rattle.std.specs.Prelude.{◌≡◌};
ghost use Rattle.weld.specs.Weld as D;

use constraint::velocity::{Velocities, anchors_of, apply_warm, inv_masses_of, velocities_of};
use records::body::BodyState;
use records::joint::{JointBase, WeldJoint};

// The velocities after the impulses that the joint has kept.
#[tactic(auto, unfolding(crate::specs::Weld::warm_start_weld))]
pub fn warm_start_weld(
    base: JointBase,
    joint: WeldJoint,
    state_a: BodyState,
    state_b: BodyState,
) -> Velocities
    ensures { result ≡ D.warm_start_weld base joint state_a state_b }
{
    let m = inv_masses_of(base);
    let v = velocities_of(state_a, state_b);
    let anchors = anchors_of(joint.frame_a, joint.frame_b, state_a, state_b);
    apply_warm(m, anchors, joint.linear_impulse, joint.angular_impulse, v)
}
