// A scene, and what a run of a call list on it answers. What a run answers is defined in specs/, and
// what holds of every run is stated in specs/Claims.antt.
#![tactic(auto)]

ghost use Rattle.std.specs.Prelude.{◌≡◌};
ghost use Rattle.scene.specs.Scene as D;

use records::body::{BodyState, IDENTITY_BODY_STATE};
use records::joint::{JointSim, unused_joint};
use solver::StepContext;

// At most 32 joints and 32 bodies, with a count of each, and one step context. A count is whatever
// the caller hands over; a joint's slot is its index in `joints`. Document 01: "the scene keeps joints and
// bodies in arrays handed over whole", and a count above 32 is a cause.
#[derive(Clone, Copy)]
pub struct Scene {
    pub joints: [JointSim; 32],
    pub bodies: [BodyState; 32],
    pub joint_count: u32,
    pub body_count: u32,
    pub context: StepContext,
}

// What a run answers of a list that is accepted. One that is not is refused
// (`records::refusal::Refusal`), and the scene stays as it was fed.
#[derive(Clone, Copy)]
pub struct Run {
    pub still: bool,
    pub scene: Scene,
}

// A scene with no joints and no bodies, for a caller to fill.
pub fn empty_scene(context: StepContext) -> Scene
    ensures { result ≡ D.empty_scene context }
{
    let unused = unused_joint();
    Scene {
        joints: [unused; 32],
        bodies: [IDENTITY_BODY_STATE; 32],
        joint_count: 0,
        body_count: 0,
        context,
    }
}
