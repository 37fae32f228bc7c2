// A strut welded to its pier: a weld joint that gives a little, in place and in angle.
ghost use Rattle.std.specs.Prelude.{◌≡◌};
ghost use Rattle.models.specs.Strut as D;

use crate::Model;
use crate::base::{ANGULAR_IMPULSE, LINEAR_IMPULSE, POST, joint_base};
use crate::body::{fixed_body, slab};
use records::joint::{
    DEFAULT_WELD_JOINT, JointSim, JointType, JointUnion, WeldJoint, joint_sim, no_angles,
};

// The weld, with impulses that a step before has left.
#[tactic(auto, unfolding(crate::specs::Strut::weld_record, crate::proofs::Literals::literals))]
fn weld_record() -> WeldJoint
    ensures { result ≡ D.weld_record }
{
    WeldJoint {
        linear_hertz: 2.0,
        linear_damping_ratio: 0.5,
        angular_hertz: 2.0,
        angular_damping_ratio: 0.7,
        linear_impulse: LINEAR_IMPULSE,
        angular_impulse: ANGULAR_IMPULSE,
        ..DEFAULT_WELD_JOINT
    }
}

#[tactic(auto, unfolding(crate::specs::Strut::weld_joint))]
fn weld_joint(strut: u8) -> JointSim
    ensures { result ≡ D.weld_joint strut }
{
    let base = joint_base(JointType::Weld, 2, POST, strut);
    joint_sim(base, JointUnion::Weld(weld_record()), no_angles())
}

// The pier stands fast, and the strut is at an index of the awake set.
#[tactic(auto, unfolding(crate::specs::Strut::strut))]
pub fn strut(strut: u8) -> Model
    ensures { result ≡ D.strut strut }
{
    Model {
        joint: weld_joint(strut),
        body_a: fixed_body(),
        body_b: slab(strut, 1.0),
    }
}
