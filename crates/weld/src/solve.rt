// The solve of a weld joint by value, which works the rows.
ghost use Rattle.std.specs.Prelude.{◌≡◌};
ghost use Rattle.weld.specs.Weld as D;

use crate::rows::{is_soft, weld_angular_row};
use constraint::angular::Row;
use constraint::answer::Report;
use constraint::kind::KindSolved;
use constraint::point::{point_bias, point_cdot_grouped, point_row};
use constraint::rotation::{RelativeRotation, flipped_relative_rotation};
use constraint::velocity::{InvMasses, Velocities, anchors_of, inv_masses_of, velocities_of};
use math_functions::types::Vec3;
use records::body::BodyState;
use records::joint::{JointBase, WeldJoint, no_angles};

// Where frame B stands relative to frame A.
#[tactic(auto, unfolding(crate::specs::Weld::joint_rotation))]
fn joint_rotation(joint: WeldJoint, state_a: BodyState, state_b: BodyState) -> RelativeRotation
    ensures { result ≡ D.joint_rotation joint state_a state_b }
{
    flipped_relative_rotation(
        state_a.delta_rotation,
        joint.frame_a.q,
        state_b.delta_rotation,
        joint.frame_b.q,
    )
}

// The angular row at the fields of the joint.
#[tactic(auto, unfolding(crate::specs::Weld::solve_angular))]
fn solve_angular(
    fixed_rotation: bool,
    joint: WeldJoint,
    rotation: RelativeRotation,
    use_bias: bool,
    m: InvMasses,
    v: Velocities,
) -> Row<Vec3>
    ensures { result ≡ D.solve_angular fixed_rotation joint rotation use_bias m v }
{
    weld_angular_row(
        !fixed_rotation,
        rotation,
        use_bias,
        joint.angular_hertz,
        joint.angular_spring,
        joint.angular_mass,
        joint.angular_impulse,
        m,
        v,
    )
}

// The anchors and the point row's bias wait for no velocity: taken first, they are there when the
// angular row is done.
#[tactic(auto, unfolding(crate::specs::Weld::solve_weld, crate::specs::Weld::solve_point, crate::specs::Weld::solve_bias))]
pub fn solve_weld(
    base: JointBase,
    mut joint: WeldJoint,
    state_a: BodyState,
    state_b: BodyState,
    use_bias: bool,
) -> KindSolved<WeldJoint>
    ensures { result ≡ D.solve_weld base joint state_a state_b use_bias }
{
    let m = inv_masses_of(base);
    let v = velocities_of(state_a, state_b);
    let anchors = anchors_of(joint.frame_a, joint.frame_b, state_a, state_b);
    let soft = is_soft(use_bias, joint.linear_hertz);
    let center = joint.delta_center;
    let bias = point_bias(soft, joint.linear_spring, anchors, center, state_a, state_b);
    let rotation = joint_rotation(joint, state_a, state_b);
    let angular = solve_angular(base.fixed_rotation, joint, rotation, use_bias, m, v);
    let v = angular.velocities;
    let cdot = point_cdot_grouped(anchors, v);
    let point = point_row(bias, cdot, anchors, joint.linear_impulse, m, v);

    let linear_impulse = point.impulse;
    let angular_impulse = angular.impulse;
    let velocities = point.velocities;
    let report = Report {
        perp_mark: None,
        point_mark: Some(point.mark),
    };
    joint.linear_impulse = linear_impulse;
    joint.angular_impulse = angular_impulse;
    KindSolved {
        joint,
        angles: no_angles(),
        velocities,
        report,
    }
}
