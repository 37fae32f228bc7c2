// A wall of four gates, each on a post of its own. No two share a body that moves, so they may be
// worked in any order: both lists end in the same figures.
use crate::{prepared, print_run};
use models::STEP;
use models::body::moving;
use models::door::door;
use records::body::BodyState;
use scene::{Scene, empty_scene};
use std::io;

// A warm start and a solve with bias of each gate, from the first on and from the last on.
const FROM_THE_FIRST: [[u8; 2]; 8] = [
    [0, 0],
    [0, 1],
    [1, 0],
    [1, 1],
    [2, 0],
    [2, 1],
    [3, 0],
    [3, 1],
];

const FROM_THE_LAST: [[u8; 2]; 8] = [
    [3, 0],
    [3, 1],
    [2, 0],
    [2, 1],
    [1, 0],
    [1, 1],
    [0, 0],
    [0, 1],
];

// The state of leaf k, which turns at a speed of its own.
fn leaf(k: u8) -> BodyState {
    let mut state = moving(0.25);
    state.angular_velocity.z = f32::from(k) * 0.5;
    state
}

fn wall() -> Scene {
    let mut scene = empty_scene(STEP);
    for k in 0..4u8 {
        scene.bodies[usize::from(k)] = leaf(k);
        scene.joints[usize::from(k)] = prepared(door(k));
    }
    scene.body_count = 4;
    scene.joint_count = 4;
    scene
}

pub fn print_walls(rt: &impl Print) -> io::Result<()> {
    println!(rt; "a wall of gates, from the first on")?;
    print_run(rt, wall(), FROM_THE_FIRST.as_flattened())?;
    println!(rt; "the same wall, from the last on")?;
    print_run(rt, wall(), FROM_THE_LAST.as_flattened())
}
