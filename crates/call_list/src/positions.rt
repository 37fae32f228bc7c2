// Where a call's joint and its two bodies stand in the arrays.
ghost use Rattle.std.specs.Prelude.{◌≡◌, ◌<◌, take};
ghost use Rattle.call_list.specs.Positions as D;

use joint::index::indices_of;
use records::body::{BodyState, IDENTITY_BODY_STATE};
use records::joint::{JointSim, JointUnion};
use scene::Scene;
use std::array;

// The positions of a joint's two bodies in an array that ends with the identity state.
#[derive(Clone, Copy)]
pub struct Positions {
    pub at_a: usize,
    pub at_b: usize,
}

// An index's position among 32 bodies and the identity state after them: that of the identity state
// for -1, and for an index past them. By `usize::try_from` a spherical joint's warm start in the program
// bench has 366 instructions, so it has 355.
fn body_position(index: i32) -> usize
    ensures { (result < 33) × (result ≡ D.body_position index) }
{
    if (0..32).contains(&index) {
        index as usize
    } else {
        32
    }
}

pub fn positions_of(joint: JointSim) -> Positions
    ensures { (result.at_a < 33) × (result.at_b < 33) × (result ≡ D.positions_of joint.union_) }
{
    let union_ = joint.union_;
    let i = indices_of(union_);
    Positions {
        at_a: body_position(i.a),
        at_b: body_position(i.b),
    }
}

// Which stage of which kind a call works: none for the empty case and past the last slot.
#[derive(Clone, Copy)]
pub enum Work {
    RevoluteWarmStart,
    SphericalWarmStart,
    WeldWarmStart,
    RevoluteSolve,
    SphericalSolve,
    WeldSolve,
    Nothing,
}

// The work past the last slot is none.
fn in_slot(slot: u8, work: Work) -> Work
    ensures { result ≡ D.in_slot slot work }
{
    if slot < 32 { work } else { Work::Nothing }
}

// Each arm tests the slot: with one test behind them a weld's warm start in the program bench has 23
// instructions more, of 319.
#[tactic(auto, unfolding(crate::specs::Positions::work_of))]
pub fn work_of(slot: u8, joint: JointSim, stage: u8) -> Work
    ensures { result ≡ D.work_of slot joint.union_ stage }
{
    let warm = stage == 0;
    match joint.union_ {
        JointUnion::Revolute(_) => if warm {
            in_slot(slot, Work::RevoluteWarmStart)
        } else {
            in_slot(slot, Work::RevoluteSolve)
        },
        JointUnion::Spherical(_) => if warm {
            in_slot(slot, Work::SphericalWarmStart)
        } else {
            in_slot(slot, Work::SphericalSolve)
        },
        JointUnion::Weld(_) => if warm {
            in_slot(slot, Work::WeldWarmStart)
        } else {
            in_slot(slot, Work::WeldSolve)
        },
        JointUnion::Other => Work::Nothing,
    }
}

// A slot's position among 32 joints: 0 for one past them, whose calls work no joint.
#[tactic(auto, unfolding(crate::specs::Positions::joint_position))]
pub fn joint_position(slot: u8) -> usize
    ensures { (result < 32) × (result ≡ D.joint_position slot) }
{
    let position = slot as usize;
    if position < 32 { position } else { 0 }
}

// The bodies of a scene, and the identity state after them. By `copy_from_slice` the lists of solves in the
// program bench take some 5 in a hundred more time.
pub fn with_identity(scene: Scene) -> [BodyState; 33]
    ensures { result ≡ D.with_identity scene.bodies }
{
    let mut out = [IDENTITY_BODY_STATE; 33];
    for k in 0..32 {
        out[k] = scene.bodies[k];
    }
    out
}

// The bodies without the identity state after them.
pub fn without_identity(bodies: [BodyState; 33]) -> [BodyState; 32]
    ensures { result ≡ take 32 bodies }
{
    array::from_fn(|k| bodies[k])
}
