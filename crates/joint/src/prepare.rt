// Prepare of a joint of any kind.
ghost use Rattle.std.specs.Prelude.{◌≡◌};
ghost use Rattle.constraint.specs.Answer.{prepare_answer};
ghost use Rattle.joint.specs.Prepare as D;

use constraint::answer::{Prepared, prepare_refused};
use records::body::BodyRecord;
use records::joint::{JointSim, JointUnion};
use revolute::prepare_revolute_joint;
use solver::StepContext;
use spherical::prepare_spherical_joint;
use weld::prepare_weld_joint;

// The prepare of the joint's own kind; the empty case is refused.
#[tactic(auto, unfolding(crate::specs::Prepare::prepare_as))]
pub fn prepare_joint(
    joint: JointSim,
    context: StepContext,
    body_a: BodyRecord,
    body_b: BodyRecord,
) -> Prepared
    ensures { prepare_answer result ≡ D.prepare_joint joint context body_a body_b }
{
    let u = joint.union_;
    match u {
        JointUnion::Revolute(_) => prepare_revolute_joint(joint, context, body_a, body_b),
        JointUnion::Spherical(_) => prepare_spherical_joint(joint, context, body_a, body_b),
        JointUnion::Weld(_) => prepare_weld_joint(joint, context, body_a, body_b),
        JointUnion::Other => prepare_refused(joint),
    }
}
