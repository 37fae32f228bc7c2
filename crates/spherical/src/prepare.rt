// The prepare of a spherical joint.
ghost use Rattle.std.specs.Prelude.{◌≡◌};
ghost use Rattle.spherical.specs.Spherical as D;

use constraint::angular::RowAxis;
use constraint::kind::KindPrepared;
use constraint::prepare::{awake_index, axial_mass, prepare_base, prepare_frame};
use math_functions::mark::Mark;
use math_functions::matrix::{add_mm, invert_matrix};
use math_functions::quat::{inv_mul_quat, rotate_vector};
use math_functions::types::{MAT3_ZERO, Matrix3, Quat, VEC3_AXIS_Z, VEC3_ZERO, Vec3};
use math_functions::vector::{cross, mul_add, normalize};
use records::body::BodyRecord;
use records::joint::{JointBase, SphericalJoint};
use solver::make_soft;
use sqrt::sqrt;

// The rotation mass, and its mark where it is inverted.
#[derive(Clone, Copy)]
struct RotationMass {
    pub value: Matrix3,
    pub mark: Option<Mark>,
}

// The cone's axis. Where the cone is off the older one stays.
#[tactic(auto, unfolding(crate::specs::Spherical::prepare_swing))]
fn prepare_swing(
    joint: SphericalJoint,
    inv_inertia_sum: Matrix3,
    cone_axis: Vec3,
    twist_axis: Vec3,
) -> RowAxis
    ensures { result ≡ D.prepare_swing joint inv_inertia_sum cone_axis twist_axis }
{
    if !joint.enable_cone_limit {
        let axis = joint.swing_axis;
        return RowAxis {
            axis,
            mass: joint.swing_mass,
        };
    }
    // Swing axis may be zero
    let axis = normalize(cross(cone_axis, twist_axis));
    let mass = axial_mass(inv_inertia_sum, axis);
    RowAxis { axis, mass }
}

#[tactic(auto, unfolding(crate::specs::Spherical::twist_jacobian))]
fn twist_jacobian(quat_a: Quat, quat_b: Quat, cone_axis: Vec3, twist_axis: Vec3) -> Vec3
    ensures { result ≡ D.twist_jacobian quat_a quat_b cone_axis twist_axis }
{
    let rel_q = inv_mul_quat(quat_a, quat_b);
    let x = rel_q.v.x;
    let y = rel_q.v.y;
    let z = rel_q.v.z;
    let tan_theta_over_2 = sqrt((x * x + y * y) / (z * z + rel_q.s * rel_q.s));
    let swing = normalize(cross(cone_axis, twist_axis));
    let perp_axis = cross(swing, cone_axis);
    mul_add(cone_axis, tan_theta_over_2, perp_axis)
}

// The twist limit's axis. Where the limit is off the older one stays.
#[tactic(auto, unfolding(crate::specs::Spherical::prepare_twist))]
fn prepare_twist(
    joint: SphericalJoint,
    inv_inertia_sum: Matrix3,
    quat_a: Quat,
    quat_b: Quat,
    cone_axis: Vec3,
    twist_axis: Vec3,
) -> RowAxis
    ensures { result ≡ D.prepare_twist joint inv_inertia_sum quat_a quat_b cone_axis twist_axis }
{
    if !joint.enable_twist_limit {
        let axis = joint.twist_jacobian;
        return RowAxis {
            axis,
            mass: joint.twist_mass,
        };
    }
    let axis = twist_jacobian(quat_a, quat_b, cone_axis, twist_axis);
    let mass = axial_mass(inv_inertia_sum, axis);
    RowAxis { axis, mass }
}

// The rotation mass and its mark: it is not inverted where rotation is fixed.
#[tactic(auto, unfolding(crate::specs::Spherical::prepare_rotation_mass, crate::specs::Spherical::rotation_mass_mark))]
fn prepare_rotation_mass(fixed_rotation: bool, inv_inertia_sum: Matrix3) -> RotationMass
    ensures value { result.value ≡ D.prepare_rotation_mass fixed_rotation inv_inertia_sum }
    ensures mark { result.mark ≡ D.rotation_mass_mark fixed_rotation inv_inertia_sum }
{
    if fixed_rotation {
        return RotationMass {
            value: MAT3_ZERO,
            mark: None,
        };
    }
    let mass = invert_matrix(inv_inertia_sum);
    RotationMass {
        value: mass.value,
        mark: Some(mass.mark),
    }
}

// The joint with its impulses, which are cleared if warm starting is off. Each kind has its own of
// these: they have the test alike, and not the impulses.
#[tactic(auto, unfolding(crate::specs::Spherical::keep_impulses))]
fn keep_impulses(mut joint: SphericalJoint, enable_warm_starting: bool) -> SphericalJoint
    ensures { result ≡ D.keep_impulses joint enable_warm_starting }
{
    if !enable_warm_starting {
        let zero = VEC3_ZERO;
        joint.linear_impulse = zero;
        joint.motor_impulse = zero;
        joint.spring_impulse = zero;
        joint.swing_impulse = 0.0;
        joint.lower_twist_impulse = 0.0;
        joint.upper_twist_impulse = 0.0;
        return joint;
    }
    joint
}

#[tactic(auto, unfolding(crate::specs::Spherical::prepare_spherical))]
pub fn prepare_spherical(
    mut base: JointBase,
    mut joint: SphericalJoint,
    h: f32,
    enable_warm_starting: bool,
    delta_center: Vec3,
    body_a: BodyRecord,
    body_b: BodyRecord,
) -> KindPrepared<SphericalJoint>
    ensures { result ≡ D.prepare_spherical base joint h enable_warm_starting delta_center body_a body_b }
{
    let frame_a = prepare_frame(body_a, base.local_frame_a);
    let frame_b = prepare_frame(body_b, base.local_frame_b);
    base = prepare_base(base, body_a, body_b);
    let sum = add_mm(base.inv_i_a, base.inv_i_b);
    let cone_axis = rotate_vector(frame_a.q, VEC3_AXIS_Z);
    let twist_axis = rotate_vector(frame_b.q, VEC3_AXIS_Z);
    let swing = prepare_swing(joint, sum, cone_axis, twist_axis);
    let twist = prepare_twist(joint, sum, frame_a.q, frame_b.q, cone_axis, twist_axis);
    let swing_axis = swing.axis;
    let twist_jacobian = twist.axis;
    joint.index_a = awake_index(body_a);
    joint.index_b = awake_index(body_b);
    joint.frame_a = frame_a;
    joint.frame_b = frame_b;
    joint.delta_center = delta_center;
    joint.swing_axis = swing_axis;
    joint.swing_mass = swing.mass;
    joint.twist_jacobian = twist_jacobian;
    joint.twist_mass = twist.mass;
    let mass = prepare_rotation_mass(base.fixed_rotation, sum);
    let rotation_mass = mass.value;
    let mass_mark = mass.mark;
    joint.rotation_mass = rotation_mass;
    joint.spring_softness = make_soft(joint.hertz, joint.damping_ratio, h);
    joint = keep_impulses(joint, enable_warm_starting);
    KindPrepared {
        base,
        joint,
        mass_mark,
    }
}
