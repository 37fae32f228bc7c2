// The stages of a kind by value, again and again: each call on what those before it left.
use crate::gates::{gate_of, sum_gates, unprepared_joints, wall_bodies, wall_context, wall_states};
use crate::prepared::sum_prepared;
use crate::stages::Stages;
use records::body::store_velocities;
use records::joint::JointSim;

// The gates' joints after so many prepares. The other rows begin with this too, so that prepare has one
// caller and is inlined there. The bodies are read before the joint. Here and below, a gate hangs between two
// neighbours, so that elements are told by index.
fn prepare_joints<S: Stages>(calls: u64) -> [JointSim; 32] {
    let mut joints = unprepared_joints(S::KIND);
    let bodies = wall_bodies();
    let context = wall_context();
    for call in 0..calls {
        let k = gate_of(call);
        S::prepare(&mut joints[k], context, bodies[k], bodies[k + 1]);
    }
    joints
}

pub fn prepares<S: Stages>(calls: u64) -> u32 {
    sum_prepared(prepare_joints::<S>(calls))
}

// The joints come back as they were, so they are not stored.
pub fn warm_starts<S: Stages>(calls: u64) -> u32 {
    let joints = prepare_joints::<S>(32);
    let mut states = wall_states();
    for call in 0..calls {
        let k = gate_of(call);
        let v = S::warm_start(&joints[k], states[k], states[k + 1]);
        states[k] = store_velocities(states[k], v.v_a, v.w_a);
        states[k + 1] = store_velocities(states[k + 1], v.v_b, v.w_b);
    }
    sum_gates(joints, states)
}

pub fn solves<S: Stages>(use_bias: bool, calls: u64) -> u32 {
    let mut joints = prepare_joints::<S>(32);
    let mut states = wall_states();
    let context = wall_context();
    for call in 0..calls {
        let k = gate_of(call);
        let v = S::solve(&mut joints[k], context, states[k], states[k + 1], use_bias);
        states[k] = store_velocities(states[k], v.v_a, v.w_a);
        states[k + 1] = store_velocities(states[k + 1], v.v_b, v.w_b);
    }
    sum_gates(joints, states)
}
