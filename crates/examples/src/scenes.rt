// The joints, bodies and states of examples 13 to 16: rotations, frames and deltas identity, all
// that an example does not name zero, and switches off.
use math_functions::types::{MAT3_ZERO, Matrix3, QUAT_IDENTITY, VEC3_ZERO, Vec3};
use records::AWAKE_SET;
use records::body::{BodyRecord, BodyState, DYNAMIC_FLAG, IDENTITY_BODY_STATE};
use records::joint::{
    DEFAULT_JOINT_BASE, DEFAULT_REVOLUTE_JOINT, JointBase, JointSim, JointType, JointUnion,
    RevoluteJoint, joint_sim, no_angles,
};
use solver::{NO_SOFTNESS, StepContext};

pub fn step(h: f32) -> StepContext {
    StepContext {
        dt: 0.0,
        inv_dt: 0.0,
        h,
        inv_h: 0.0,
        sub_step_count: 0,
        contact_softness: NO_SOFTNESS,
        static_softness: NO_SOFTNESS,
        restitution_threshold: 0.0,
        max_linear_velocity: 0.0,
        contact_speed: 0.0,
        enable_warm_starting: false,
    }
}

// A joint of a kind before prepare.
pub fn sim(type_: JointType, union_: JointUnion) -> JointSim {
    let base = JointBase {
        joint_id: 0,
        body_id_a: 0,
        body_id_b: 0,
        type_,
        ..DEFAULT_JOINT_BASE
    };
    joint_sim(base, union_, no_angles())
}

// A hinge with a motor.
pub fn motor(max_motor_torque: f32, motor_speed: f32) -> RevoluteJoint {
    RevoluteJoint {
        max_motor_torque,
        motor_speed,
        enable_motor: true,
        ..DEFAULT_REVOLUTE_JOINT
    }
}

// A body at an index of a set.
pub fn body(
    set_index: i32,
    local_index: i32,
    inv_mass: f32,
    inv_inertia_world: Matrix3,
) -> BodyRecord {
    BodyRecord {
        set_index,
        local_index,
        inv_mass,
        inv_inertia_world,
        rotation: QUAT_IDENTITY,
        center: VEC3_ZERO,
        local_center: VEC3_ZERO,
    }
}

// A body with the inverse mass 1 that does not turn.
pub fn point_body(local_index: i32) -> BodyRecord {
    body(AWAKE_SET, local_index, 1.0, MAT3_ZERO)
}

// A body of another set, which gets the index -1.
pub fn fixed_body() -> BodyRecord {
    body(0, 0, 0.0, MAT3_ZERO)
}

// A dynamic body that moves along x.
pub fn moving(x: f32) -> BodyState {
    BodyState {
        linear_velocity: Vec3 { x, ..VEC3_ZERO },
        flags: DYNAMIC_FLAG,
        ..IDENTITY_BODY_STATE
    }
}
