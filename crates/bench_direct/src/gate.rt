// Gate 1 of a wall, which hangs on gate 0: what is lent to a direct call, and a checksum of what the
// calls left of it.
use bench_wall::sum::add_gate;
use bench_wall::wall::{Kind, wall};
use lent_calls::Lent;
use records::body::{BodyState, IDENTITY_BODY_STATE};
use records::joint::JointSim;
use solver::StepContext;

// The joint, the states of the first three gates, which are lent, and the wall's step context.
#[derive(Clone, Copy)]
pub struct Gate {
    pub joint: JointSim,
    pub states: [BodyState; 40],
    pub context: StepContext,
}

pub fn wall_gate(kind: Kind) -> Gate {
    let wall = wall(Some(kind));
    let mut states = [IDENTITY_BODY_STATE; 40];
    states[..3].copy_from_slice(&wall.bodies[..3]);
    Gate {
        joint: wall.joints[1],
        states,
        context: wall.context,
    }
}

// The joint with each of its two bodies.
pub fn checksum(lent: Lent) -> u32 {
    let states = lent.states;
    add_gate(add_gate(0, lent.joint, states[0]), lent.joint, states[1])
}
