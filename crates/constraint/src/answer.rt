// What the stages by value answer. A joint whose case is not the kind called is refused: it comes back as
// it was, with the velocities as they were, and nothing is reported.
//
// The joint stands in every answer, and the refusal beside it, last: a `Result` of so large a record is
// copied once more: lists of solves and some prepares then take more than the Rust's time, and a byte before
// the joint costs a copy too (docs/PERFORMANCE.md).
ghost use Rattle.std.specs.Prelude.{◌≡◌};
ghost use Rattle.constraint.specs.Answer as D;

use crate::velocity::{Velocities, velocities_of};
use math_functions::mark::Mark;
use records::body::BodyState;
use records::joint::JointSim;
use records::refusal::WrongKind;

// `mass_mark` is that of spherical's rotation mass and of weld's angular mass, where it is inverted.
#[derive(Clone, Copy)]
pub struct Prepared {
    pub joint: JointSim,
    pub mass_mark: Option<Mark>,
    pub refused: Option<WrongKind>,
}

#[derive(Clone, Copy)]
pub struct WarmStarted {
    pub joint: JointSim,
    pub velocities: Velocities,
    pub refused: Option<WrongKind>,
}

// What a solve reports of its rows: the marks of revolute's perpendicular row and of the point row.
#[derive(Clone, Copy)]
pub struct Report {
    pub perp_mark: Option<Mark>,
    pub point_mark: Option<Mark>,
}

// The report of a stage that worked no row.
pub const NO_REPORT: Report = Report {
    perp_mark: None,
    point_mark: None,
};

#[derive(Clone, Copy)]
pub struct Solved {
    pub joint: JointSim,
    pub velocities: Velocities,
    pub report: Report,
    pub refused: Option<WrongKind>,
}

// What prepare answers of a joint that it refuses.
pub fn prepare_refused(joint: JointSim) -> Prepared
    ensures { D.prepare_answer result ≡ D.not_prepared joint }
{
    Prepared {
        joint,
        mass_mark: None,
        refused: Some(WrongKind),
    }
}

// What a warm start answers of a joint that it refuses.
pub fn warm_start_refused(joint: JointSim, state_a: BodyState, state_b: BodyState) -> WarmStarted
    ensures { D.warm_start_answer result ≡ D.not_warm_started joint state_a state_b }
{
    WarmStarted {
        joint,
        velocities: velocities_of(state_a, state_b),
        refused: Some(WrongKind),
    }
}

// What a solve answers of a joint that it refuses.
pub fn solve_refused(joint: JointSim, state_a: BodyState, state_b: BodyState) -> Solved
    ensures { D.solve_answer result ≡ D.not_solved joint state_a state_b }
{
    Solved {
        joint,
        velocities: velocities_of(state_a, state_b),
        report: NO_REPORT,
        refused: Some(WrongKind),
    }
}
