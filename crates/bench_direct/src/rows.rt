// The rows: a direct call again and again on gate 1, each on what those before it left.
use crate::gate::{Gate, checksum, wall_gate};
use bench_wall::wall::Kind;
use lent_calls::{
    Lent, lend_solve_revolute_joint, lend_solve_spherical_joint, lend_solve_weld_joint,
    lend_warm_start_revolute_joint, lend_warm_start_spherical_joint, lend_warm_start_weld_joint,
};

// A row is one of the six calls by name, which are what is timed.
fn warm_start(kind: Kind, gate: Gate, calls: u64) -> Lent {
    let states = gate.states;
    match kind {
        Kind::Revolute => lend_warm_start_revolute_joint(gate.joint, states, 3, calls),
        Kind::Spherical => lend_warm_start_spherical_joint(gate.joint, states, 3, calls),
        Kind::Weld => lend_warm_start_weld_joint(gate.joint, states, 3, calls),
    }
}

fn solve(kind: Kind, gate: Gate, use_bias: bool, calls: u64) -> Lent {
    let states = gate.states;
    let context = gate.context;
    match kind {
        Kind::Revolute => lend_solve_revolute_joint(
            gate.joint, context, states, 3, use_bias, calls,
        ),
        Kind::Spherical => lend_solve_spherical_joint(
            gate.joint, context, states, 3, use_bias, calls,
        ),
        Kind::Weld => lend_solve_weld_joint(gate.joint, context, states, 3, use_bias, calls),
    }
}

// The checksum after so many warm starts.
pub fn warm_starts(kind: Kind, calls: u64) -> u32 {
    checksum(warm_start(kind, wall_gate(kind), calls))
}

// The checksum after so many solves.
pub fn solves(kind: Kind, use_bias: bool, calls: u64) -> u32 {
    checksum(solve(kind, wall_gate(kind), use_bias, calls))
}
