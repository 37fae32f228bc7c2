// The cases of the stages: prepare, warm start and solve of the three kinds of joint.
use crate::agreement::Agreement;
use crate::case::Case;
use crate::joint_words::{Kind, OfKind};
use crate::stage_answers::Outcome;
use crate::state_words::{answer_states, states_of};
use crate::words::Answer;
use constraint::answer::{Prepared, Solved, WarmStarted};
use constraint::velocity::Velocities;
use joint::index::{Indices, bad_index, indices_of};
use joint::store::{StatePair, store_pair};
use records::NULL_INDEX;
use records::body::{BodyRecord, BodyState, IDENTITY_BODY_STATE};
use records::joint::JointSim;
use revolute::{prepare_revolute_joint, solve_revolute_joint, warm_start_revolute_joint};
use solver::StepContext;
use spherical::{prepare_spherical_joint, solve_spherical_joint, warm_start_spherical_joint};
use weld::{prepare_weld_joint, solve_weld_joint, warm_start_weld_joint};

// The states that a case has, at most three, and which of them are those of the joint's bodies.
#[derive(Clone, Copy)]
struct Row {
    count: u32,
    states: [BodyState; 3],
    at: Indices,
}

// The state of an index.
fn state_of(states: &[BodyState; 3], index: i32) -> BodyState {
    let Ok(k) = usize::try_from(index) else {
        return IDENTITY_BODY_STATE;
    };
    states.get(k).copied().unwrap_or(IDENTITY_BODY_STATE)
}

// Stores the state of an index, if it is that of a state.
fn store(states: &mut [BodyState; 3], index: i32, state: BodyState) {
    let Ok(k) = usize::try_from(index) else {
        return;
    };
    if let Some(place) = states.get_mut(k) {
        *place = state;
    }
}

impl Row {
    // The row of a case, which has a count of states that is allowed, and indices below it.
    fn of(case: &mut Case<'_>, joint: &JointSim) -> Row {
        let at = indices_of(joint.union_);
        let count: u32 = case.input();
        case.expect(count <= 3);
        case.expect(!bad_index(count as usize, at.a) && !bad_index(count as usize, at.b));
        Row {
            count,
            states: states_of(case, count),
            at,
        }
    }

    // The states of the joint's bodies.
    fn pair(&self) -> StatePair {
        StatePair {
            state_a: state_of(&self.states, self.at.a),
            state_b: state_of(&self.states, self.at.b),
        }
    }

    // The states as a stage left them: as they were in the inputs, but those of the bodies, B's last, have
    // its velocities stored.
    fn left(&self, v: Velocities) -> [BodyState; 3] {
        let is_one_body = self.at.a == self.at.b && self.at.a != NULL_INDEX;
        let before = self.pair();
        let pair = store_pair(before.state_a, before.state_b, is_one_body, v);
        let mut states = self.states;
        store(&mut states, self.at.a, pair.state_a);
        store(&mut states, self.at.b, pair.state_b);
        states
    }
}

// The answer of a stage is what it left: the joint, the states with its velocities stored, and the marks.
fn left<M: Answer>(
    mut case: Case<'_>,
    kind: Kind,
    row: &Row,
    r: Outcome<Velocities, M>,
) -> Agreement {
    case.expect(r.refused.is_none());
    case.answer(OfKind(kind, &r.joint));
    answer_states(&mut case, row.count, &row.left(r.left));
    case.answer(r.marks);
    case.end()
}

fn prepares<F>(mut case: Case<'_>, kind: Kind, prepare: F) -> Agreement
where
    F: Fn(JointSim, StepContext, BodyRecord, BodyRecord) -> Prepared,
    requires { F.IsAlwaysCallable prepare }
{
    let joint = case.joint(kind);
    let step: StepContext = case.input();
    let body_a: BodyRecord = case.input();
    let body_b: BodyRecord = case.input();
    let r = Outcome::from(prepare(joint, step, body_a, body_b));
    case.expect(r.refused.is_none());
    case.answer(OfKind(kind, &r.joint));
    case.answer(r.marks);
    case.end()
}

fn warm_starts<F>(mut case: Case<'_>, kind: Kind, warm_start: F) -> Agreement
where
    F: Fn(JointSim, BodyState, BodyState) -> WarmStarted,
    requires { F.IsAlwaysCallable warm_start }
{
    let joint = case.joint(kind);
    let row = Row::of(&mut case, &joint);
    let pair = row.pair();
    let r = Outcome::from(warm_start(joint, pair.state_a, pair.state_b));
    left(case, kind, &row, r)
}

fn solves<F>(mut case: Case<'_>, kind: Kind, solve: F) -> Agreement
where
    F: Fn(JointSim, StepContext, BodyState, BodyState, bool) -> Solved,
    requires { F.IsAlwaysCallable solve }
{
    let joint = case.joint(kind);
    let step: StepContext = case.input();
    let use_bias: bool = case.input();
    let row = Row::of(&mut case, &joint);
    let pair = row.pair();
    let r = Outcome::from(solve(joint, step, pair.state_a, pair.state_b, use_bias));
    left(case, kind, &row, r)
}

// The functions are numbered in fours, a kind each, and the fourth is none.
pub fn agrees(f: u32, case: Case<'_>) -> Option<Agreement> {
    Some(match f {
        0x80 => prepares(case, Kind::Revolute, prepare_revolute_joint),
        0x81 => prepares(case, Kind::Spherical, prepare_spherical_joint),
        0x82 => prepares(case, Kind::Weld, prepare_weld_joint),
        0x84 => warm_starts(case, Kind::Revolute, warm_start_revolute_joint),
        0x85 => warm_starts(case, Kind::Spherical, warm_start_spherical_joint),
        0x86 => warm_starts(case, Kind::Weld, warm_start_weld_joint),
        0x88 => solves(case, Kind::Revolute, solve_revolute_joint),
        0x89 => solves(case, Kind::Spherical, solve_spherical_joint),
        0x8a => solves(case, Kind::Weld, solve_weld_joint),
        _ => return None,
    })
}
