// A wall of 32 gates: the first hangs on a post and each other on the one before it, all by the joint of
// one model, or by those of the three models in turn.
ghost use Rattle.std.specs.Prelude.{◌≡◌};
ghost use Rattle.bench_wall.specs.Wall as D;

use models::body::{fixed_body, moving, slab};
use models::door::door;
use models::hip::hip;
use models::strut::strut;
use models::{Model, STEP, prepare};
use records::body::{BodyRecord, BodyState};
use records::joint::JointSim;
use scene::Scene;
use std::array;

// Of which kind a joint is.
#[derive(Clone, Copy)]
pub enum Kind {
    Revolute,
    Spherical,
    Weld,
}

// The kind of gate k: that of the wall, or the three in turn.
fn gate_kind(kind: Option<Kind>, k: u8) -> Kind
    ensures { result ≡ D.gate_kind kind k }
{
    match (kind, k % 3) {
        (Some(kind), _) => kind,
        (None, 0) => Kind::Revolute,
        (None, 1) => Kind::Spherical,
        _ => Kind::Weld,
    }
}

fn model_of(kind: Option<Kind>, k: u8) -> Model
    ensures { result ≡ D.model_of kind k }
{
    match gate_kind(kind, k) {
        Kind::Revolute => door(k),
        Kind::Spherical => hip(k, k),
        Kind::Weld => strut(k),
    }
}

// Gate k's body; gate 0 stands at the origin.
#[tactic(auto, unfolding(crate::specs::Wall::gate_body))]
fn gate_body(k: u8) -> BodyRecord
    ensures { result ≡ D.gate_body k }
{
    slab(k, f32::from(k))
}

// What gate k hangs on.
#[tactic(auto, unfolding(crate::specs::Wall::body_before))]
pub fn body_before(k: u8) -> BodyRecord
    ensures { result ≡ D.body_before k }
{
    if k == 0 {
        return fixed_body();
    }
    gate_body(k - 1)
}

// Gate k before prepare.
#[tactic(auto, unfolding(crate::specs::Wall::gate))]
fn gate(kind: Option<Kind>, k: u8) -> Model
    ensures { result ≡ D.gate kind k }
{
    let mut gate = model_of(kind, k);
    gate.body_a = body_before(k);
    gate.body_b = gate_body(k);
    gate
}

fn prepared_joint(kind: Option<Kind>, k: u8) -> JointSim
    ensures { result ≡ D.prepared_joint kind k }
{
    prepare(gate(kind, k), STEP).joint
}

#[tactic(auto, unfolding(crate::specs::Wall::unprepared_joint))]
fn unprepared_joint(kind: Option<Kind>, k: u8) -> JointSim
    ensures { result ≡ D.unprepared_joint kind k }
{
    model_of(kind, k).joint
}

#[tactic(auto, unfolding(crate::specs::Wall::joint_of))]
fn joint_of(kind: Option<Kind>, k: u8, is_prepared: bool) -> JointSim
    ensures { result ≡ D.joint_of kind k is_prepared }
{
    if is_prepared {
        return prepared_joint(kind, k);
    }
    unprepared_joint(kind, k)
}

fn joints_of(kind: Option<Kind>, is_prepared: bool) -> [JointSim; 32]
    ensures { result ≡ D.joints_of kind is_prepared }
{
    array::from_fn(|k| joint_of(kind, k as u8, is_prepared))
}

// Each gate moves and turns a little more than the one before it.
fn gate_state(k: u8) -> BodyState
    ensures { result ≡ D.gate_state k }
{
    let mut state = moving(0.25);
    let more = 0.03125 * f32::from(k);
    let less = 0.5 - more;
    let turn = 0.03 * more;
    state.linear_velocity.y = more;
    state.angular_velocity.z = less;
    state.delta_rotation.v.z = turn;
    state
}

#[tactic(auto, unfolding(crate::specs::Wall::gate_states))]
fn gate_states() -> [BodyState; 32]
    ensures { result ≡ D.gate_states }
{
    array::from_fn(|k| gate_state(k as u8))
}

fn wall_of(kind: Option<Kind>, is_prepared: bool) -> Scene
    ensures { result ≡ D.wall_of kind is_prepared }
{
    Scene {
        joints: joints_of(kind, is_prepared),
        bodies: gate_states(),
        joint_count: 32,
        body_count: 32,
        context: STEP,
    }
}

// The wall with its joints before prepare.
#[tactic(auto, unfolding(crate::specs::Wall::unprepared_wall))]
pub fn unprepared_wall(kind: Option<Kind>) -> Scene
    ensures { result ≡ D.unprepared_wall kind }
{
    wall_of(kind, false)
}

#[tactic(auto, unfolding(crate::specs::Wall::wall))]
pub fn wall(kind: Option<Kind>) -> Scene
    ensures { result ≡ D.wall kind }
{
    wall_of(kind, true)
}
