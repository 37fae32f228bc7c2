// A door on its hinge: a revolute joint whose spring shuts the door, whose motor opens it, and whose
// limits stop it on both sides.
ghost use Rattle.std.specs.Prelude.{◌≡◌};
ghost use Rattle.models.specs.Door as D;

use crate::Model;
use crate::base::{LINEAR_IMPULSE, POST, joint_base};
use crate::body::{fixed_body, slab};
use math_functions::types::Vec2;
use records::joint::{
    DEFAULT_REVOLUTE_JOINT, JointSim, JointType, JointUnion, RevoluteJoint, joint_sim, no_angles,
};

// The hinge, with impulses that a step before has left.
#[tactic(auto, unfolding(crate::specs::Door::hinge, crate::proofs::Literals::literals))]
fn hinge() -> RevoluteJoint
    ensures { result ≡ D.hinge }
{
    RevoluteJoint {
        linear_impulse: LINEAR_IMPULSE,
        perp_impulse: Vec2 { x: 0.01, y: 0.02 },
        spring_impulse: 0.01,
        motor_impulse: 0.02,
        lower_impulse: 0.03,
        upper_impulse: 0.01,
        hertz: 4.0,
        damping_ratio: 0.7,
        max_motor_torque: 20.0,
        motor_speed: 0.5,
        target_angle: 0.25,
        lower_angle: -0.125,
        upper_angle: 0.09375,
        enable_spring: true,
        enable_motor: true,
        enable_limit: true,
        ..DEFAULT_REVOLUTE_JOINT
    }
}

#[tactic(auto, unfolding(crate::specs::Door::hinge_joint))]
fn hinge_joint(leaf: u8) -> JointSim
    ensures { result ≡ D.hinge_joint leaf }
{
    let base = joint_base(JointType::Revolute, 0, POST, leaf);
    joint_sim(base, JointUnion::Revolute(hinge()), no_angles())
}

// The post stands fast, and the leaf is at an index of the awake set.
#[tactic(auto, unfolding(crate::specs::Door::door))]
pub fn door(leaf: u8) -> Model
    ensures { result ≡ D.door leaf }
{
    Model {
        joint: hinge_joint(leaf),
        body_a: fixed_body(),
        body_b: slab(leaf, 1.0),
    }
}
