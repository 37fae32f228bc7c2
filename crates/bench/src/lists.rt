// Call lists of 4,096 calls on a wall of gates: the slots in turn, again and again.
ghost use Rattle.std.specs.Prelude.{◌≡◌, length};

use bench_wall::sum::{add_gate, add_word};
use bench_wall::wall::{Kind, wall};
use call_list::run_list;
use scene::Scene;
use std::array;

// The list's bytes, two to a call: its slot and its stage, that of the list or the three in turn over the
// rounds.
fn list_of(stage: Option<u8>) -> [u8; 8192]
    ensures { 8192 ≡ length result }
{
    array::from_fn(|at| {
        let call = at / 2;
        if at % 2 == 0 {
            return (call % 32) as u8;
        }
        stage.unwrap_or((call / 32 % 3) as u8)
    })
}

fn sum_scene(scene: Scene) -> u32 {
    scene
        .joints
        .iter()
        .zip(&scene.bodies)
        .fold(0, |sum, (joint, state)| add_gate(sum, *joint, *state))
}

// The list again and again, each time on what the run before it left. How many runs were still is
// part of the checksum. Without a kind the gates have the three in turn, and without a stage the rounds.
// A stage is a number, as in the list's bytes.
pub fn run_lists(kind: Option<Kind>, stage: Option<u8>, repeats: u32) -> u32 {
    let list = list_of(stage);
    let mut scene = wall(kind);
    let mut still = 0u32;
    for n in 0..repeats {
        if let Ok(run) = run_list(scene, &list) {
            scene = run.scene;
            still += u32::from(run.still);
        }
    }
    add_word(sum_scene(scene), still)
}
