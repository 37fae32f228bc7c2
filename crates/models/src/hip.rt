// A hip in its socket: a spherical joint with a spring and a motor, whose twist is limited on both
// sides and whose swing by a cone.
ghost use Rattle.std.specs.Prelude.{◌≡◌};
ghost use Rattle.models.specs.Hip as D;

use crate::Model;
use crate::base::{ANGULAR_IMPULSE, LINEAR_IMPULSE, joint_base};
use crate::body::slab;
use math_functions::types::{Quat, Vec3};
use records::joint::{
    DEFAULT_SPHERICAL_JOINT, JointSim, JointType, JointUnion, SphericalJoint, joint_sim, no_angles,
};

const MOTOR_IMPULSE: Vec3 = Vec3 {
    x: 0.01,
    y: 0.03,
    z: -0.02,
};

const MOTOR_VELOCITY: Vec3 = Vec3 {
    x: 0.125,
    y: -0.25,
    z: 0.375,
};

const TARGET_ROTATION: Quat = Quat {
    v: Vec3 {
        x: 0.02,
        y: -0.01,
        z: 0.03,
    },
    s: 0.9993,
};

// The socket, with impulses that a step before has left.
#[tactic(auto, unfolding(crate::specs::Hip::socket, crate::proofs::Literals::literals))]
fn socket() -> SphericalJoint
    ensures { result ≡ D.socket }
{
    SphericalJoint {
        linear_impulse: LINEAR_IMPULSE,
        spring_impulse: ANGULAR_IMPULSE,
        motor_impulse: MOTOR_IMPULSE,
        lower_twist_impulse: 0.01,
        upper_twist_impulse: 0.02,
        swing_impulse: 0.03,
        hertz: 4.0,
        damping_ratio: 0.7,
        max_motor_torque: 20.0,
        motor_velocity: MOTOR_VELOCITY,
        lower_twist_angle: -0.125,
        upper_twist_angle: 0.09375,
        cone_angle: 0.125,
        target_rotation: TARGET_ROTATION,
        enable_spring: true,
        enable_motor: true,
        enable_cone_limit: true,
        enable_twist_limit: true,
        ..DEFAULT_SPHERICAL_JOINT
    }
}

#[tactic(auto, unfolding(crate::specs::Hip::socket_joint))]
fn socket_joint(pelvis: u8, thigh: u8) -> JointSim
    ensures { result ≡ D.socket_joint pelvis thigh }
{
    let base = joint_base(JointType::Spherical, 1, pelvis, thigh);
    joint_sim(base, JointUnion::Spherical(socket()), no_angles())
}

// The pelvis and the thigh are at indices of the awake set.
#[tactic(auto, unfolding(crate::specs::Hip::hip, crate::proofs::Literals::literals))]
pub fn hip(pelvis: u8, thigh: u8) -> Model
    ensures { result ≡ D.hip pelvis thigh }
{
    Model {
        joint: socket_joint(pelvis, thigh),
        body_a: slab(pelvis, 2.0),
        body_b: slab(thigh, 3.0),
    }
}
