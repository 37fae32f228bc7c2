// The gates of a wall in arrays, with what belongs to the post before them: gate k hangs between the
// bodies k and k + 1.
ghost use Rattle.std.specs.Prelude.{◌<◌};

use bench_wall::sum::add_gate;
use bench_wall::wall::{Kind, body_before, unprepared_wall};
use records::body::{BodyRecord, BodyState, IDENTITY_BODY_STATE};
use records::joint::JointSim;
use solver::StepContext;
use std::array;

// The gate of a call: the gates in turn.
pub fn gate_of(call: u64) -> usize
    ensures { result < 32 }
{
    (call % 32) as usize
}

// The joints of a wall of one kind, before prepare.
pub fn unprepared_joints(kind: Kind) -> [JointSim; 32] {
    unprepared_wall(Some(kind)).joints
}

// The step context and the states are the same in a wall of any kind.
pub fn wall_context() -> StepContext {
    unprepared_wall(None).context
}

// The post has no state, so the identity state stands for it.
pub fn wall_states() -> [BodyState; 33] {
    let mut states = [IDENTITY_BODY_STATE; 33];
    states[1..].copy_from_slice(&unprepared_wall(None).bodies);
    states
}

pub fn wall_bodies() -> [BodyRecord; 33] {
    array::from_fn(|k| body_before(k as u8))
}

pub fn sum_gates(joints: [JointSim; 32], states: [BodyState; 33]) -> u32 {
    joints
        .iter()
        .zip(&states[1..])
        .fold(0, |sum, (joint, state)| add_gate(sum, *joint, *state))
}
