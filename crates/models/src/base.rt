// The part of a joint that all kinds share.
ghost use Rattle.std.specs.Prelude.{◌≡◌};
ghost use Rattle.models.specs.Base as D;

use crate::STEP;
use math_functions::types::{QUAT_IDENTITY, Quat, Transform, Vec3};
use records::joint::{DEFAULT_JOINT_BASE, JointBase, JointType};
use solver::make_soft;

// A joint's frame on its first body, half way to the second.
const FRAME_A: Transform = Transform {
    p: Vec3 {
        x: 0.5,
        y: 0.0625,
        z: -0.125,
    },
    q: QUAT_IDENTITY,
};

// And on the second, a little turned and tilted.
const FRAME_B: Transform = Transform {
    p: Vec3 {
        x: -0.5,
        y: 0.0625,
        z: -0.125,
    },
    q: Quat {
        v: Vec3 {
            x: 0.03125,
            y: 0.0625,
            z: 0.046875,
        },
        s: 0.996454,
    },
};

// Impulses that a step before has left: a linear and an angular one.
pub const LINEAR_IMPULSE: Vec3 = Vec3 {
    x: 0.01,
    y: -0.02,
    z: 0.03,
};

pub const ANGULAR_IMPULSE: Vec3 = Vec3 {
    x: 0.02,
    y: 0.01,
    z: -0.01,
};

// The number of what stands fast, above those of all bodies that move.
pub const POST: u8 = 32;

// Numbers, frames and the softness of a stiff joint, all else as the default has it.
#[tactic(auto, unfolding(crate::specs::Base::joint_base, crate::proofs::Literals::literals))]
pub fn joint_base(type_: JointType, joint: u8, body_a: u8, body_b: u8) -> JointBase
    ensures { result ≡ D.joint_base type_ joint body_a body_b }
{
    let hertz = 60.0;
    let damping_ratio = 2.0;
    JointBase {
        joint_id: i32::from(joint),
        body_id_a: i32::from(body_a),
        body_id_b: i32::from(body_b),
        type_,
        local_frame_a: FRAME_A,
        local_frame_b: FRAME_B,
        constraint_hertz: hertz,
        constraint_damping_ratio: damping_ratio,
        constraint_softness: make_soft(hertz, damping_ratio, STEP.h),
        force_threshold: 1000.0,
        torque_threshold: 1000.0,
        ..DEFAULT_JOINT_BASE
    }
}
