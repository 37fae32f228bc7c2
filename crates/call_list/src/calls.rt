// The calls of a list, worked one after the other on a scene. Nothing is tested here: a call that a run
// would refuse is worked as its definition says.
ghost use Rattle.std.specs.Prelude.{◌≡◌, ◌/◌, length, take};
ghost use Rattle.std.specs.Simd.{first_chunks};
ghost use Rattle.scene.specs.Calls.{calls};
ghost use Rattle.scene.specs.Plain.{run_calls};
ghost use Rattle.scene.specs.Scene.{with_bodies_and_joints};

use crate::positions::{
    Positions, Work, joint_position, positions_of, with_identity, without_identity, work_of,
};
use constraint::answer::Solved;
use constraint::velocity::velocities_of;
use records::body::{BodyState, store_velocities};
use records::joint::JointSim;
use revolute::{solve_revolute_joint, warm_start_revolute_joint};
use scene::Scene;
use spherical::{solve_spherical_joint, warm_start_spherical_joint};
use weld::{solve_weld_joint, warm_start_weld_joint};

// The calls of a list, two bytes to each; a last byte by itself is none.
fn calls_of(list: &[u8]) -> &[[u8; 2]]
    ensures front { result.now ≡ first_chunks 2 (length list.now / 2) list.now }
    ensures front_len { length result.now ≡ length list.now / 2 }
{
    let (calls, _) = list.as_chunks::<2>();
    calls
}

// The joint as a solve leaves it: by a function the array's element is stored from the answer in place.
fn solved_joint(solved: Solved) -> JointSim
    ensures { result ≡ solved.joint }
{
    solved.joint
}

// The scene with the joints and the bodies that its calls left.
fn scene_left(scene: Scene, joints: [JointSim; 32], bodies: [BodyState; 33]) -> Scene
    ensures { result ≡ with_bodies_and_joints scene (take 32 bodies) joints }
{
    let left = without_identity(bodies);
    let context = scene.context;
    Scene {
        joints,
        bodies: left,
        joint_count: scene.joint_count,
        body_count: scene.body_count,
        context,
    }
}

// The calls in order, each on what the one before it left. A stage is a byte of the list, and one above 2,
// which a run refuses, is worked as 2. Bodies and joints are read and stored one element at a time; index -1
// leads to the last position of `bodies`, which holds the identity state. The joint is read in each arm, so
// that only what its stage needs is loaded, and stored there by a solve, so that only what the solve changes
// is written. Bodies are read again before they are stored: A, so that it need not be kept through the stage,
// and B, since both indices may name one body.
pub fn run_calls(scene: Scene, list: &[u8]) -> Scene
    ensures { result ≡ run_calls (calls list.now) scene }
{
    let context = scene.context;
    let mut joints = scene.joints;
    let mut bodies = with_identity(scene);
    for &[slot, stage] in calls_of(list) {
        let at = joint_position(slot);
        let Positions { at_a, at_b } = positions_of(joints[at]);
        let a = bodies[at_a];
        let b = bodies[at_b];
        let v = match work_of(slot, joints[at], stage) {
            Work::RevoluteWarmStart => warm_start_revolute_joint(joints[at], a, b).velocities,
            Work::SphericalWarmStart => warm_start_spherical_joint(joints[at], a, b).velocities,
            Work::WeldWarmStart => warm_start_weld_joint(joints[at], a, b).velocities,
            Work::RevoluteSolve => {
                let s = solve_revolute_joint(joints[at], context, a, b, stage == 1);
                joints[at] = solved_joint(s);
                s.velocities
            }
            Work::SphericalSolve => {
                let s = solve_spherical_joint(joints[at], context, a, b, stage == 1);
                joints[at] = solved_joint(s);
                s.velocities
            }
            Work::WeldSolve => {
                let s = solve_weld_joint(joints[at], context, a, b, stage == 1);
                joints[at] = solved_joint(s);
                s.velocities
            }
            Work::Nothing => velocities_of(a, b),
        };
        bodies[at_a] = store_velocities(bodies[at_a], v.v_a, v.w_a);
        bodies[at_b] = store_velocities(bodies[at_b], v.v_b, v.w_b);
    }
    scene_left(scene, joints, bodies)
}
