// The prepare of a weld joint by value.
ghost use Rattle.std.specs.Prelude.{◌≡◌};
ghost use Rattle.weld.specs.Weld as D;

use constraint::kind::KindPrepared;
use constraint::prepare::{awake_index, prepare_base, prepare_frame};
use math_functions::matrix::{add_mm, invert_matrix};
use math_functions::types::{VEC3_ZERO, Vec3};
use records::body::BodyRecord;
use records::joint::{JointBase, WeldJoint};
use solver::{Softness, make_soft};

// The softness of a row: the joint's own where the row's hertz is zero.
#[tactic(auto, unfolding(crate::specs::Weld::row_spring))]
fn row_spring(hertz: f32, damping_ratio: f32, h: f32, constraint_softness: Softness) -> Softness
    ensures { result ≡ D.row_spring hertz damping_ratio h constraint_softness }
{
    if hertz == 0.0 {
        constraint_softness
    } else {
        make_soft(hertz, damping_ratio, h)
    }
}

// The impulses stay only for a warm start. Each kind has its own of these: they have the test alike, and
// not the impulses.
#[tactic(auto, unfolding(crate::specs::Weld::keep_impulses))]
fn keep_impulses(mut joint: WeldJoint, enable_warm_starting: bool) -> WeldJoint
    ensures { result ≡ D.keep_impulses joint enable_warm_starting }
{
    if !enable_warm_starting {
        let zero = VEC3_ZERO;
        joint.linear_impulse = zero;
        joint.angular_impulse = zero;
        return joint;
    }
    joint
}

// The masses, the frames and the softness of the two rows at the start of a step.
#[tactic(auto, unfolding(crate::specs::Weld::prepare_weld))]
pub fn prepare_weld(
    mut base: JointBase,
    mut joint: WeldJoint,
    h: f32,
    enable_warm_starting: bool,
    delta_center: Vec3,
    body_a: BodyRecord,
    body_b: BodyRecord,
) -> KindPrepared<WeldJoint>
    ensures { result ≡ D.prepare_weld base joint h enable_warm_starting delta_center body_a body_b }
{
    let softness = base.constraint_softness;
    let inv_inertia_sum = add_mm(body_a.inv_inertia_world, body_b.inv_inertia_world);

    joint.index_a = awake_index(body_a);
    joint.index_b = awake_index(body_b);
    joint.frame_a = prepare_frame(body_a, base.local_frame_a);
    joint.frame_b = prepare_frame(body_b, base.local_frame_b);
    joint.delta_center = delta_center;
    let mass = invert_matrix(inv_inertia_sum);
    let angular_mass = mass.value;
    let mass_mark = Some(mass.mark);
    joint.angular_mass = angular_mass;
    joint.linear_spring = row_spring(joint.linear_hertz, joint.linear_damping_ratio, h, softness);
    joint.angular_spring = row_spring(
        joint.angular_hertz,
        joint.angular_damping_ratio,
        h,
        softness,
    );
    base = prepare_base(base, body_a, body_b);
    joint = keep_impulses(joint, enable_warm_starting);
    KindPrepared {
        base,
        joint,
        mass_mark,
    }
}
