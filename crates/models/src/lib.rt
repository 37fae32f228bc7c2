// The models that the programs run: a door on its hinge, a hip in its socket, and a strut welded to its
// pier.
#![tactic(auto)]

ghost use Rattle.std.specs.Prelude.{◌≡◌};
ghost use Rattle.constraint.specs.Answer.{prepare_answer};
ghost use Rattle.joint.specs.Prepare.{prepare_joint};

use constraint::answer::Prepared;
use joint::prepare::prepare_joint;
use records::body::BodyRecord;
use records::joint::JointSim;
use solver::{NO_SOFTNESS, StepContext};

mod base;
pub mod body;
pub mod door;
pub mod hip;
pub mod strut;

// A joint before prepare, and what prepare reads of its two bodies. The figures are an example's; specs/ has
// each of them, and each model states its own.
#[derive(Clone, Copy)]
pub struct Model {
    pub joint: JointSim,
    pub body_a: BodyRecord,
    pub body_b: BodyRecord,
}

// A step of 1/64 s in four sub-steps. No joint reads the softness of the contacts.
pub const STEP: StepContext = StepContext {
    dt: 0.015625,
    inv_dt: 64.0,
    h: 0.00390625,
    inv_h: 256.0,
    sub_step_count: 4,
    contact_softness: NO_SOFTNESS,
    static_softness: NO_SOFTNESS,
    restitution_threshold: 1.0,
    max_linear_velocity: 400.0,
    contact_speed: 3.0,
    enable_warm_starting: true,
};

// What prepare answers of a model's joint.
pub fn prepare(model: Model, context: StepContext) -> Prepared
    ensures { prepare_answer result ≡ prepare_joint model.joint context model.body_a model.body_b }
{
    prepare_joint(model.joint, context, model.body_a, model.body_b)
}
