// The direct calls: a joint that is lent to be changed in place, and body states in a lent slice. Each
// makes its tests, works the stage of its own kind on copies, and stores what the stage changed. One that
// is refused stores nothing.
#![tactic(auto)]

ghost use Rattle.direct.specs.Direct as D;

use crate::positions::find_positions;
use crate::states::{read_states, write_states};
use constraint::answer::{NO_REPORT, Report};
use joint::kind::Kind;
use records::body::BodyState;
use records::joint::{JointSim, RevoluteJoint, SphericalJoint, WeldJoint};
use records::refusal::Cause;
use solver::StepContext;

mod positions;
mod states;

// What a direct call answers: what a solve reports of its rows, and the cause of a refusal, whose place is
// 0. As a `Result` it makes warm starts 14 to 26 in a hundred slower, above the
// Rust's time (docs/PERFORMANCE.md).
#[derive(Clone, Copy)]
pub struct Answer {
    pub report: Report,
    pub refused: Option<Cause>,
}

fn warm_start<K: Kind>(joint: &mut JointSim, states: &mut [BodyState]) -> Answer
    ensures { D.Leaves (D.direct_call (D.warm_start K.kind) joint.old states.old)
        (D.answered result) joint.new states.new }
{
    let n = states.len();
    let positions = find_positions::<K>(joint.union_, n);
    if let Some(cause) = positions.refused {
        return Answer {
            report: NO_REPORT,
            refused: Some(cause),
        };
    }
    let pair = read_states(states, positions);
    let s = K::warm_start(*joint, pair.state_a, pair.state_b);
    write_states(states, positions, s.velocities);
    Answer {
        report: NO_REPORT,
        refused: None,
    }
}

fn solve<K: Kind>(
    joint: &mut JointSim,
    context: StepContext,
    states: &mut [BodyState],
    use_bias: bool,
) -> Answer
    ensures { D.Leaves (D.direct_call (D.solve K.kind context use_bias) joint.old states.old)
        (D.answered result) joint.new states.new }
{
    let n = states.len();
    let positions = find_positions::<K>(joint.union_, n);
    if let Some(cause) = positions.refused {
        return Answer {
            report: NO_REPORT,
            refused: Some(cause),
        };
    }
    let pair = read_states(states, positions);
    let s = K::solve(*joint, context, pair.state_a, pair.state_b, use_bias);
    *joint = s.joint;
    write_states(states, positions, s.velocities);
    Answer {
        report: s.report,
        refused: None,
    }
}

// The six calls of document 01, by the Rust's names.

pub fn warm_start_revolute_joint(joint: &mut JointSim, states: &mut [BodyState]) -> Answer
    ensures { D.Leaves (D.direct_call (D.warm_start D.revolute) joint.old states.old)
        (D.answered result) joint.new states.new }
{
    warm_start::<RevoluteJoint>(joint, states)
}

pub fn warm_start_spherical_joint(joint: &mut JointSim, states: &mut [BodyState]) -> Answer
    ensures { D.Leaves (D.direct_call (D.warm_start D.spherical) joint.old states.old)
        (D.answered result) joint.new states.new }
{
    warm_start::<SphericalJoint>(joint, states)
}

pub fn warm_start_weld_joint(joint: &mut JointSim, states: &mut [BodyState]) -> Answer
    ensures { D.Leaves (D.direct_call (D.warm_start D.weld) joint.old states.old)
        (D.answered result) joint.new states.new }
{
    warm_start::<WeldJoint>(joint, states)
}

pub fn solve_revolute_joint(
    joint: &mut JointSim,
    context: StepContext,
    states: &mut [BodyState],
    use_bias: bool,
) -> Answer
    ensures { D.Leaves (D.direct_call (D.solve D.revolute context use_bias) joint.old states.old)
        (D.answered result) joint.new states.new }
{
    solve::<RevoluteJoint>(joint, context, states, use_bias)
}

pub fn solve_spherical_joint(
    joint: &mut JointSim,
    context: StepContext,
    states: &mut [BodyState],
    use_bias: bool,
) -> Answer
    ensures { D.Leaves (D.direct_call (D.solve D.spherical context use_bias) joint.old states.old)
        (D.answered result) joint.new states.new }
{
    solve::<SphericalJoint>(joint, context, states, use_bias)
}

pub fn solve_weld_joint(
    joint: &mut JointSim,
    context: StepContext,
    states: &mut [BodyState],
    use_bias: bool,
) -> Answer
    ensures { D.Leaves (D.direct_call (D.solve D.weld context use_bias) joint.old states.old)
        (D.answered result) joint.new states.new }
{
    solve::<WeldJoint>(joint, context, states, use_bias)
}
