// The cases of direct calls on lent memory.
//
// The inputs are the joint after the number of its case, for a solve the context and the switch, then
// how many states are lent, at most 40, and these. The answer is number, place, the joint, the states and
// the marks.
use crate::agreement::Agreement;
use crate::case::Case;
use crate::joint_words::{Kind, OfKind};
use crate::stage_answers::Outcome;
use crate::state_words::{answer_states, states_of};
use lent_calls::{
    Lent, lend_solve_revolute_joint, lend_solve_spherical_joint, lend_solve_weld_joint,
    lend_warm_start_revolute_joint, lend_warm_start_spherical_joint, lend_warm_start_weld_joint,
};
use records::body::BodyState;
use records::joint::JointSim;
use solver::StepContext;

// How many states are lent.
fn count_of(case: &mut Case<'_>) -> u32 {
    let count: u32 = case.input();
    case.expect(count <= 40);
    count
}

// Whether the call leaves what the case says.
fn left(mut case: Case<'_>, kind: Kind, count: u32, lent: Lent) -> Agreement {
    let r = Outcome::from(lent);
    case.answer(r.number_and_place());
    case.answer(OfKind(kind, &r.joint));
    answer_states(&mut case, count, &r.left);
    case.answer(r.marks);
    case.end()
}

fn warm_starts<F>(mut case: Case<'_>, call: F) -> Agreement
where
    F: Fn(JointSim, [BodyState; 40], usize, u64) -> Lent,
    requires { F.IsAlwaysCallable call }
{
    let joint: JointSim = case.input();
    let count = count_of(&mut case);
    let states = states_of(&mut case, count);
    let lent = call(joint, states, count as usize, 1);
    left(case, Kind::of(&joint), count, lent)
}

fn solves<F>(mut case: Case<'_>, call: F) -> Agreement
where
    F: Fn(JointSim, StepContext, [BodyState; 40], usize, bool, u64) -> Lent,
    requires { F.IsAlwaysCallable call }
{
    let joint: JointSim = case.input();
    let step: StepContext = case.input();
    let use_bias: bool = case.input();
    let count = count_of(&mut case);
    let states = states_of(&mut case, count);
    let lent = call(joint, step, states, count as usize, use_bias, 1);
    left(case, Kind::of(&joint), count, lent)
}

// The functions are numbered in fours, a kind each, and the fourth is none.
pub fn agrees(f: u32, case: Case<'_>) -> Option<Agreement> {
    Some(match f {
        0x90 => warm_starts(case, lend_warm_start_revolute_joint),
        0x91 => warm_starts(case, lend_warm_start_spherical_joint),
        0x92 => warm_starts(case, lend_warm_start_weld_joint),
        0x94 => solves(case, lend_solve_revolute_joint),
        0x95 => solves(case, lend_solve_spherical_joint),
        0x96 => solves(case, lend_solve_weld_joint),
        _ => return None,
    })
}
