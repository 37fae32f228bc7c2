// What a guide's panel shows. A door on its hinge, a hip in its socket and a strut welded to its pier
// stand in one scene; their joints are prepared, a list of calls is run, and velocities, pushes, stops
// and still are printed. Then a wall of gates is worked in two orders, with the same lines.
#![tactic(auto)]

mod print;
mod wall;

use call_list::run_list;
use models::body::moving;
use models::door::door;
use models::hip::hip;
use models::strut::strut;
use models::{Model, STEP, prepare};
use print::Shown;
use records::joint::JointSim;
use scene::{Scene, empty_scene};
use std::fmt::Display;
use std::io;
use wall::print_walls;

// Each joint in turn, three rounds: warm starts, solves with bias, solves without. A call is a joint
// and a stage.
const ROUNDS: [[u8; 2]; 9] = [
    [0, 0],
    [1, 0],
    [2, 0],
    [0, 1],
    [1, 1],
    [2, 1],
    [0, 2],
    [1, 2],
    [2, 2],
];

// The joint of a model, prepared.
pub fn prepared(model: Model) -> JointSim {
    prepare(model, STEP).joint
}

// The door's leaf is body 0, pelvis and thigh are 1 and 2, and the strut is 3.
fn build() -> Scene {
    let mut scene = empty_scene(STEP);
    scene.joints[0] = prepared(door(0));
    scene.joints[1] = prepared(hip(1, 2));
    scene.joints[2] = prepared(strut(3));
    scene.joint_count = 3;
    scene.bodies[0] = moving(0.25);
    scene.bodies[1] = moving(0.5);
    scene.bodies[2] = moving(0.75);
    scene.bodies[3] = moving(0.5);
    scene.body_count = 4;
    scene
}

// The first four of a scene's bodies or joints, a line for each.
fn print_first<T: Copy>(rt: &impl Print, name: &str, all: [T; 32]) -> io::Result<()>
where
    Shown<T>: Display,
{
    for (k, &item) in all.iter().take(4).enumerate() {
        println!(rt; "{name} {k}: {}", Shown(item))?;
    }
    Ok(())
}

fn print_scene(rt: &impl Print, scene: Scene) -> io::Result<()> {
    print_first(rt, "body", scene.bodies)?;
    print_first(rt, "joint", scene.joints)
}

// What a run of the list answers and leaves.
pub fn print_run(rt: &impl Print, scene: Scene, list: &[u8]) -> io::Result<()> {
    match run_list(scene, list) {
        Ok(run) => {
            let still = if run.still { "still" } else { "not still" };
            println!(rt; "number 0, place 0, {still}")?;
            print_scene(rt, run.scene)
        }
        Err(refusal) => {
            println!(rt; "{refusal}, not still")?;
            print_scene(rt, scene)
        }
    }
}

fn main(rt: HostRuntime) -> io::Result<()> {
    println!(rt; "a door, a hip and a strut")?;
    print_run(&rt, build(), ROUNDS.as_flattened())?;
    print_walls(&rt)
}
