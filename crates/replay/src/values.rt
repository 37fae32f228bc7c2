// The cases of the stages by value, on a joint of any case.
//
// The inputs are the joint after the number of its case; for prepare the context and two bodies, for
// a warm start two states, for a solve the context, the switch and two states. The answer is number,
// place, the joint, but for prepare the velocities, and but for a warm start the marks.
use crate::agreement::Agreement;
use crate::case::Case;
use crate::joint_words::{Kind, OfKind};
use crate::stage_answers::Outcome;
use crate::words::Answer;
use constraint::answer::{Prepared, Solved, WarmStarted};
use records::body::{BodyRecord, BodyState};
use records::joint::JointSim;
use revolute::{prepare_revolute_joint, solve_revolute_joint, warm_start_revolute_joint};
use solver::StepContext;
use spherical::{prepare_spherical_joint, solve_spherical_joint, warm_start_spherical_joint};
use weld::{prepare_weld_joint, solve_weld_joint, warm_start_weld_joint};

// Whether the stage answers what the case says.
fn left<L: Answer, M: Answer>(mut case: Case<'_>, kind: Kind, r: Outcome<L, M>) -> Agreement {
    case.answer(r.number_and_place());
    case.answer(OfKind(kind, &r.joint));
    case.answer((r.left, r.marks));
    case.end()
}

// (The functions of these names in stages.rt read another joint, other states and another answer: all but
// the call.)
fn prepares<F>(mut case: Case<'_>, prepare: F) -> Agreement
where
    F: Fn(JointSim, StepContext, BodyRecord, BodyRecord) -> Prepared,
    requires { F.IsAlwaysCallable prepare }
{
    let joint: JointSim = case.input();
    let step: StepContext = case.input();
    let body_a: BodyRecord = case.input();
    let body_b: BodyRecord = case.input();
    let r = prepare(joint, step, body_a, body_b);
    left(case, Kind::of(&joint), Outcome::from(r))
}

fn warm_starts<F>(mut case: Case<'_>, warm_start: F) -> Agreement
where
    F: Fn(JointSim, BodyState, BodyState) -> WarmStarted,
    requires { F.IsAlwaysCallable warm_start }
{
    let joint: JointSim = case.input();
    let state_a: BodyState = case.input();
    let state_b: BodyState = case.input();
    let r = warm_start(joint, state_a, state_b);
    left(case, Kind::of(&joint), Outcome::from(r))
}

fn solves<F>(mut case: Case<'_>, solve: F) -> Agreement
where
    F: Fn(JointSim, StepContext, BodyState, BodyState, bool) -> Solved,
    requires { F.IsAlwaysCallable solve }
{
    let joint: JointSim = case.input();
    let step: StepContext = case.input();
    let use_bias: bool = case.input();
    let state_a: BodyState = case.input();
    let state_b: BodyState = case.input();
    let r = solve(joint, step, state_a, state_b, use_bias);
    left(case, Kind::of(&joint), Outcome::from(r))
}

// The functions are numbered in fours, a kind each, and the fourth is none.
pub fn agrees(f: u32, case: Case<'_>) -> Option<Agreement> {
    Some(match f {
        0xc0 => prepares(case, prepare_revolute_joint),
        0xc1 => prepares(case, prepare_spherical_joint),
        0xc2 => prepares(case, prepare_weld_joint),
        0xc4 => warm_starts(case, warm_start_revolute_joint),
        0xc5 => warm_starts(case, warm_start_spherical_joint),
        0xc6 => warm_starts(case, warm_start_weld_joint),
        0xc8 => solves(case, solve_revolute_joint),
        0xc9 => solves(case, solve_spherical_joint),
        0xca => solves(case, solve_weld_joint),
        _ => return None,
    })
}
