// A checksum of the floats that prepare writes.
use bench_wall::sum::{add_float, add_vec3};
use math_functions::types::{Matrix3, Transform};
use records::joint::{JointBase, JointSim, JointUnion, RevoluteJoint, SphericalJoint, WeldJoint};
use solver::Softness;

fn add_matrix(sum: u32, m: Matrix3) -> u32 {
    add_vec3(add_vec3(add_vec3(sum, m.cx), m.cy), m.cz)
}

fn add_transform(sum: u32, t: Transform) -> u32 {
    add_float(add_vec3(add_vec3(sum, t.p), t.q.v), t.q.s)
}

fn add_softness(sum: u32, s: Softness) -> u32 {
    let sum = add_float(sum, s.bias_rate);
    add_float(add_float(sum, s.mass_scale), s.impulse_scale)
}

fn add_base(sum: u32, base: JointBase) -> u32 {
    let s = add_float(add_float(sum, base.inv_mass_a), base.inv_mass_b);
    add_matrix(add_matrix(s, base.inv_i_a), base.inv_i_b)
}

// A kind's sum goes through the fields of its own record.
fn add_revolute(sum: u32, j: RevoluteJoint) -> u32 {
    let s = add_transform(add_transform(sum, j.frame_a), j.frame_b);
    let s = add_vec3(add_vec3(s, j.delta_center), j.rotation_axis_z);
    let s = add_vec3(add_vec3(s, j.perp_axis_x), j.perp_axis_y);
    add_softness(add_float(s, j.axial_mass), j.spring_softness)
}

fn add_spherical(sum: u32, j: SphericalJoint) -> u32 {
    let s = add_transform(add_transform(sum, j.frame_a), j.frame_b);
    let s = add_vec3(add_vec3(s, j.delta_center), j.swing_axis);
    let s = add_matrix(add_vec3(s, j.twist_jacobian), j.rotation_mass);
    let s = add_float(add_float(s, j.swing_mass), j.twist_mass);
    add_softness(s, j.spring_softness)
}

fn add_weld(sum: u32, j: WeldJoint) -> u32 {
    let s = add_transform(add_transform(sum, j.frame_a), j.frame_b);
    let s = add_matrix(add_vec3(s, j.delta_center), j.angular_mass);
    add_softness(add_softness(s, j.linear_spring), j.angular_spring)
}

fn add_union(sum: u32, union_: JointUnion) -> u32 {
    match union_ {
        JointUnion::Revolute(j) => add_revolute(sum, j),
        JointUnion::Spherical(j) => add_spherical(sum, j),
        JointUnion::Weld(j) => add_weld(sum, j),
        JointUnion::Other => sum,
    }
}

fn add_prepared(sum: u32, joint: JointSim) -> u32 {
    add_union(add_base(sum, joint.base), joint.union_)
}

pub fn sum_prepared(joints: [JointSim; 32]) -> u32 {
    joints
        .iter()
        .fold(0, |sum, joint| add_prepared(sum, *joint))
}
