// The prepare of a revolute joint by value.
ghost use Rattle.std.specs.Prelude.{◌≡◌};
ghost use Rattle.revolute.specs.Revolute as D;

use constraint::kind::KindPrepared;
use constraint::prepare::{awake_index, axial_mass, prepare_base, prepare_frame};
use math_functions::matrix::add_mm;
use math_functions::quat::{inv_mul_quat, rotate_vector};
use math_functions::types::{
    Quat, VEC2_ZERO, VEC3_AXIS_X, VEC3_AXIS_Y, VEC3_AXIS_Z, VEC3_ZERO, Vec3,
};
use math_functions::vector::{add, cross, mul_sv};
use records::body::BodyRecord;
use records::joint::{JointBase, RevoluteJoint};
use solver::make_soft;

// The two axes that stay collinear, in the world: the perpendicular row's impulse is about them.
#[derive(Clone, Copy)]
pub struct PerpAxes {
    pub x: Vec3,
    pub y: Vec3,
}

// One of the two axes, where q is the rotation of frame A.
#[tactic(auto, unfolding(crate::specs::Revolute::perp_axis))]
fn perp_axis(q: Quat, rel_q: Quat, axis: Vec3) -> Vec3
    ensures { result ≡ D.perp_axis q rel_q axis }
{
    let turned = add(mul_sv(rel_q.s, axis), cross(rel_q.v, axis));
    mul_sv(0.5, rotate_vector(q, turned))
}

pub fn perp_axes(q: Quat, rel_q: Quat) -> PerpAxes
    ensures { result ≡ D.perp_axes q rel_q }
{
    let x = perp_axis(q, rel_q, VEC3_AXIS_X);
    let y = perp_axis(q, rel_q, VEC3_AXIS_Y);
    PerpAxes { x, y }
}

// The impulses stay only for a warm start. Each kind has its own of these: they have the test alike, and
// not the impulses.
#[tactic(auto, unfolding(crate::specs::Revolute::keep_impulses))]
fn keep_impulses(mut joint: RevoluteJoint, enable_warm_starting: bool) -> RevoluteJoint
    ensures { result ≡ D.keep_impulses joint enable_warm_starting }
{
    if !enable_warm_starting {
        let linear_impulse = VEC3_ZERO;
        let perp_impulse = VEC2_ZERO;
        joint.linear_impulse = linear_impulse;
        joint.perp_impulse = perp_impulse;
        joint.motor_impulse = 0.0;
        joint.spring_impulse = 0.0;
        joint.lower_impulse = 0.0;
        joint.upper_impulse = 0.0;
        return joint;
    }
    joint
}

// The masses, the frames, the rotation axis and the perpendicular axes at the start of a step.
#[tactic(auto, unfolding(crate::specs::Revolute::prepare_revolute))]
pub fn prepare_revolute(
    mut base: JointBase,
    mut joint: RevoluteJoint,
    h: f32,
    enable_warm_starting: bool,
    delta_center: Vec3,
    body_a: BodyRecord,
    body_b: BodyRecord,
) -> KindPrepared<RevoluteJoint>
    ensures { result ≡ D.prepare_revolute base joint h enable_warm_starting delta_center body_a body_b }
{
    let inv_inertia_sum = add_mm(body_a.inv_inertia_world, body_b.inv_inertia_world);
    let frame_a = prepare_frame(body_a, base.local_frame_a);
    let frame_b = prepare_frame(body_b, base.local_frame_b);

    // Rotation axis is the z-axis of body A.
    let rotation_axis_z = rotate_vector(frame_a.q, VEC3_AXIS_Z);
    let rel_q = inv_mul_quat(frame_a.q, frame_b.q);
    joint.index_a = awake_index(body_a);
    joint.index_b = awake_index(body_b);
    joint.frame_a = frame_a;
    joint.frame_b = frame_b;
    joint.delta_center = delta_center;
    joint.axial_mass = axial_mass(inv_inertia_sum, rotation_axis_z);
    joint.rotation_axis_z = rotation_axis_z;

    // These are needed for warm starting
    let axes = perp_axes(frame_a.q, rel_q);
    let x = axes.x;
    let y = axes.y;
    joint.perp_axis_x = x;
    joint.perp_axis_y = y;
    joint.spring_softness = make_soft(joint.hertz, joint.damping_ratio, h);
    base = prepare_base(base, body_a, body_b);
    joint = keep_impulses(joint, enable_warm_starting);
    KindPrepared {
        base,
        joint,
        mass_mark: None,
    }
}
