// The weld joint: a rigid connection (optionally softened by linear/angular springs) that locks the
// relative position and orientation of two frames. Its three stages, over a joint of any kind.
// Each of the three is document 01's by name: it opens this kind's record and calls this kind's stage, which
// a function over a trait of the kinds would have to be told of three times.
#![tactic(auto)]

ghost use Rattle.std.specs.Prelude.{◌≡◌};
ghost use Rattle.constraint.specs.Answer.{prepare_answer, warm_start_answer, solve_answer};
ghost use Rattle.weld.specs.Weld as D;

use crate::prepare::prepare_weld;
use crate::solve::solve_weld;
use crate::warm_start::warm_start_weld;
use constraint::answer::{
    Prepared, Solved, WarmStarted, prepare_refused, solve_refused, warm_start_refused,
};
use math_functions::transform::sub_pos;
use records::body::{BodyRecord, BodyState};
use records::joint::{JointSim, WeldJoint, joint_sim, no_angles};
use solver::StepContext;

mod prepare;
mod rows;
mod solve;
mod warm_start;

// Prepare; a joint that is no weld joint is refused.
#[tactic(auto, unfolding(crate::specs::Weld::prepare_weld_joint))]
pub fn prepare_weld_joint(
    joint: JointSim,
    context: StepContext,
    body_a: BodyRecord,
    body_b: BodyRecord,
) -> Prepared
    ensures { prepare_answer result ≡ D.prepare_weld_joint joint context body_a body_b }
{
    let Ok(k) = WeldJoint::try_from(joint.union_) else {
        return prepare_refused(joint);
    };
    let delta_center = sub_pos(body_b.center, body_a.center);
    let p = prepare_weld(
        joint.base,
        k,
        context.h,
        context.enable_warm_starting,
        delta_center,
        body_a,
        body_b,
    );
    Prepared {
        joint: joint_sim(p.base, p.joint.into(), no_angles()),
        mass_mark: p.mass_mark,
        refused: None,
    }
}

// Warm start; the joint comes back as it was, and one of another kind is refused.
#[tactic(auto, unfolding(crate::specs::Weld::warm_start_weld_joint))]
pub fn warm_start_weld_joint(joint: JointSim, state_a: BodyState, state_b: BodyState) -> WarmStarted
    ensures { warm_start_answer result ≡ D.warm_start_weld_joint joint state_a state_b }
{
    let Ok(k) = WeldJoint::try_from(joint.union_) else {
        return warm_start_refused(joint, state_a, state_b);
    };
    let velocities = warm_start_weld(joint.base, k, state_a, state_b);
    WarmStarted {
        joint,
        velocities,
        refused: None,
    }
}

// Solve; a joint that is no weld joint is refused. `context` is unused, as in the Rust.
#[tactic(auto, unfolding(crate::specs::Weld::solve_weld_joint))]
pub fn solve_weld_joint(
    joint: JointSim,
    context: StepContext,
    state_a: BodyState,
    state_b: BodyState,
    use_bias: bool,
) -> Solved
    ensures { solve_answer result ≡ D.solve_weld_joint joint context state_a state_b use_bias }
{
    let Ok(k) = WeldJoint::try_from(joint.union_) else {
        return solve_refused(joint, state_a, state_b);
    };
    let s = solve_weld(joint.base, k, state_a, state_b, use_bias);
    Solved {
        joint: joint_sim(joint.base, s.joint.into(), no_angles()),
        velocities: s.velocities,
        report: s.report,
        refused: None,
    }
}
