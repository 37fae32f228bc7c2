// Examples 13 to 16: prepared joints, one stage, and the states as they are stored.
use crate::scenes::{body, fixed_body, motor, moving, point_body, sim, step};
use crate::words::{MINUS_ONE, MINUS_TWO, ONE, THREE, ZERO, holds};
use constraint::answer::Solved;
use joint::store::store_pair;
use math_functions::types::{Matrix3, VEC3_AXIS_X, VEC3_AXIS_Y, VEC3_AXIS_Z};
use records::AWAKE_SET;
use records::body::{BodyRecord, BodyState, IDENTITY_BODY_STATE};
use records::joint::{DEFAULT_WELD_JOINT, JointSim, JointType, JointUnion, WeldJoint};
use revolute::{prepare_revolute_joint, solve_revolute_joint};
use weld::{prepare_weld_joint, solve_weld_joint, warm_start_weld_joint};

fn prepared_weld(body_a: BodyRecord, body_b: BodyRecord) -> JointSim {
    let weld = sim(JointType::Weld, JointUnion::Weld(DEFAULT_WELD_JOINT));
    prepare_weld_joint(weld, step(0.0), body_a, body_b).joint
}

// What a solve without bias leaves of the prepared weld and the velocities.
fn solved_weld(body_a: BodyRecord, body_b: BodyRecord, a: BodyState, b: BodyState) -> Solved {
    let weld = prepared_weld(body_a, body_b);
    solve_weld_joint(weld, step(0.0), a, b, false)
}

pub fn is_13() -> bool {
    let a = moving(0.0);
    let b = moving(2.0);
    let s = solved_weld(point_body(0), point_body(1), a, b);
    let after = store_pair(a, b, false, s.velocities);
    let JointUnion::Weld(j) = s.joint.union_ else {
        return false;
    };
    holds(
        [
            after.state_a.linear_velocity.x,
            after.state_b.linear_velocity.x,
            j.linear_impulse.x,
        ],
        [ONE, ONE, MINUS_ONE],
    )
}

pub fn is_14() -> bool {
    let a = IDENTITY_BODY_STATE;
    let b = moving(2.0);
    let s = solved_weld(fixed_body(), point_body(0), a, b);
    let after = store_pair(a, b, false, s.velocities);
    let JointUnion::Weld(j) = s.joint.union_ else {
        return false;
    };
    holds(
        [after.state_b.linear_velocity.x, j.linear_impulse.x],
        [ZERO, MINUS_TWO],
    )
}

const MAT3_IDENTITY: Matrix3 = Matrix3 {
    cx: VEC3_AXIS_X,
    cy: VEC3_AXIS_Y,
    cz: VEC3_AXIS_Z,
};

fn prepared_motor() -> JointSim {
    let hinge = sim(JointType::Revolute, JointUnion::Revolute(motor(2.0, 4.0)));
    let b = body(AWAKE_SET, 0, 1.0, MAT3_IDENTITY);
    prepare_revolute_joint(hinge, step(0.5), fixed_body(), b).joint
}

pub fn is_15() -> bool {
    let a = IDENTITY_BODY_STATE;
    let b = moving(0.0);
    let s = solve_revolute_joint(prepared_motor(), step(0.5), a, b, false);
    let after = store_pair(a, b, false, s.velocities);
    let JointUnion::Revolute(j) = s.joint.union_ else {
        return false;
    };
    holds(
        [j.motor_impulse, after.state_b.angular_velocity.z],
        [ONE, ONE],
    )
}

// The joint with the linear impulse (1, 0, 0), if it is a weld.
fn pushed(sim: JointSim) -> JointSim {
    let JointUnion::Weld(j) = sim.union_ else {
        return sim;
    };
    let union_ = JointUnion::Weld(WeldJoint {
        linear_impulse: VEC3_AXIS_X,
        ..j
    });
    JointSim { union_, ..sim }
}

pub fn is_16() -> bool {
    let body = point_body(0);
    let state = moving(2.0);
    let w = warm_start_weld_joint(pushed(prepared_weld(body, body)), state, state);
    let after = store_pair(state, state, true, w.velocities);
    holds([after.state_a.linear_velocity.x], [THREE])
}
