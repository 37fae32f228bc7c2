// What the stages and the direct calls answer, alike: the cause of a refusal, the joint, and what else they leave.
use crate::agreement::Agreement;
use crate::words::{Answer, Words};
use constraint::answer::{Prepared, Report, Solved, WarmStarted};
use constraint::velocity::Velocities;
use lent_calls::Lent;
use math_functions::mark::Mark;
use records::body::BodyState;
use records::joint::JointSim;
use records::refusal::Cause;

// `left` is what the call leaves beside the joint, and `marks` those of what may fall back to zeros.
#[derive(Clone, Copy)]
pub struct Outcome<L, M> {
    pub refused: Option<Cause>,
    pub joint: JointSim,
    pub left: L,
    pub marks: M,
}

impl<L, M> Outcome<L, M> {
    // The number, and the place of a call by itself.
    pub fn number_and_place(&self) -> (u32, u32) {
        match self.refused {
            Some(cause) => (cause.number(), 0),
            None => (0, 0),
        }
    }
}

impl From<Prepared> for Outcome<(), Option<Mark>> {
    fn from(r: Prepared) -> Outcome<(), Option<Mark>> {
        Outcome {
            refused: r.refused.map(Cause::from),
            joint: r.joint,
            left: (),
            marks: r.mass_mark,
        }
    }
}

impl From<WarmStarted> for Outcome<Velocities, ()> {
    fn from(r: WarmStarted) -> Outcome<Velocities, ()> {
        Outcome {
            refused: r.refused.map(Cause::from),
            joint: r.joint,
            left: r.velocities,
            marks: (),
        }
    }
}

impl From<Solved> for Outcome<Velocities, Report> {
    fn from(r: Solved) -> Outcome<Velocities, Report> {
        Outcome {
            refused: r.refused.map(Cause::from),
            joint: r.joint,
            left: r.velocities,
            marks: r.report,
        }
    }
}

impl From<Lent> for Outcome<[BodyState; 40], Report> {
    fn from(r: Lent) -> Outcome<[BodyState; 40], Report> {
        let states = r.states;
        Outcome {
            refused: r.answer.refused,
            joint: r.joint,
            left: states,
            marks: r.answer.report,
        }
    }
}

impl Answer for Velocities {
    fn compare(&self, words: &mut Words<'_>) -> Agreement {
        words.compare(&(self.v_a, self.w_a)) & words.compare(&(self.v_b, self.w_b))
    }
}

// The marks of a solve.
impl Answer for Report {
    fn compare(&self, words: &mut Words<'_>) -> Agreement {
        words.compare(&(self.perp_mark, self.point_mark))
    }
}
