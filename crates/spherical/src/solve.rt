// The solve of a spherical joint, which works the rows.
ghost use Rattle.std.specs.Prelude.{◌≡◌};
ghost use Rattle.spherical.specs.Spherical as D;

use crate::rows::{cone_row, motor_row, spring_row};
use constraint::angular::{
    LimitRows, Row, TwistLimit, is_worked, row_axis, swing_angle_if, twist_angle_if,
    twist_limit_rows,
};
use constraint::answer::Report;
use constraint::kind::KindSolved;
use constraint::point::{PointRow, point_bias, point_cdot, point_row};
use constraint::rotation::{RelativeRotation, relative_rotation};
use constraint::soft::LimitSoftness;
use constraint::velocity::{InvMasses, Velocities, anchors_of, inv_masses_of, velocities_of};
use math_functions::types::Vec3;
use records::body::BodyState;
use records::joint::{JointBase, LimitAngles, SphericalJoint};

// Where frame B stands relative to frame A.
#[tactic(auto, unfolding(crate::specs::Spherical::joint_rotation))]
fn joint_rotation(joint: SphericalJoint, state_a: BodyState, state_b: BodyState) -> RelativeRotation
    ensures { result ≡ D.joint_rotation joint state_a state_b }
{
    relative_rotation(
        state_a.delta_rotation,
        joint.frame_a.q,
        state_b.delta_rotation,
        joint.frame_b.q,
    )
}

// The spring row at the fields of the joint.
#[tactic(auto, unfolding(crate::specs::Spherical::solve_spring))]
fn solve_spring(
    fixed_rotation: bool,
    joint: SphericalJoint,
    rotation: RelativeRotation,
    m: InvMasses,
    v: Velocities,
) -> Row<Vec3>
    ensures { result ≡ D.solve_spring fixed_rotation joint rotation m v }
{
    spring_row(
        is_worked(joint.enable_spring, fixed_rotation),
        rotation,
        joint.target_rotation,
        joint.spring_softness,
        joint.rotation_mass,
        joint.spring_impulse,
        m,
        v,
    )
}

// The motor row at the fields of the joint.
#[tactic(auto, unfolding(crate::specs::Spherical::solve_motor))]
fn solve_motor(
    fixed_rotation: bool,
    joint: SphericalJoint,
    h: f32,
    m: InvMasses,
    v: Velocities,
) -> Row<Vec3>
    ensures { result ≡ D.solve_motor fixed_rotation joint h m v }
{
    motor_row(
        is_worked(joint.enable_motor, fixed_rotation),
        joint.motor_velocity,
        joint.max_motor_torque,
        h,
        joint.rotation_mass,
        joint.motor_impulse,
        m,
        v,
    )
}

// What the rows of the twist limit are worked with, at a twist angle.
fn twist_limit(joint: SphericalJoint, angle: f32) -> TwistLimit
    ensures { result ≡ D.twist_limit joint angle }
{
    let about = row_axis(joint.twist_jacobian, joint.twist_mass);
    TwistLimit {
        angle,
        lower_angle: joint.lower_twist_angle,
        upper_angle: joint.upper_twist_angle,
        about,
        lower_impulse: joint.lower_twist_impulse,
        upper_impulse: joint.upper_twist_impulse,
    }
}

// The two limit rows at the fields of the joint.
#[tactic(auto, unfolding(crate::specs::Spherical::solve_limits))]
fn solve_limits(
    fixed_rotation: bool,
    joint: SphericalJoint,
    angle: f32,
    soft: LimitSoftness,
    m: InvMasses,
    v: Velocities,
) -> LimitRows
    ensures { result ≡ D.solve_limits fixed_rotation soft.softness joint angle soft.inv_h soft.use_bias m v }
{
    let worked = is_worked(joint.enable_twist_limit, fixed_rotation);
    twist_limit_rows(worked, twist_limit(joint, angle), soft, m, v)
}

// The cone's row at the fields of the joint.
#[tactic(auto, unfolding(crate::specs::Spherical::solve_cone))]
fn solve_cone(
    fixed_rotation: bool,
    joint: SphericalJoint,
    swing_angle: f32,
    soft: LimitSoftness,
    m: InvMasses,
    v: Velocities,
) -> Row<f32>
    ensures { result ≡ D.solve_cone fixed_rotation soft.softness joint swing_angle soft.inv_h soft.use_bias m v }
{
    let about = row_axis(joint.swing_axis, joint.swing_mass);
    cone_row(
        is_worked(joint.enable_cone_limit, fixed_rotation),
        swing_angle,
        joint.cone_angle,
        soft,
        about,
        joint.swing_impulse,
        m,
        v,
    )
}

// The joint with the impulses that its rows leave.
fn with_impulses(
    mut joint: SphericalJoint,
    point: PointRow,
    spring: Row<Vec3>,
    motor: Row<Vec3>,
    limits: LimitRows,
    cone: Row<f32>,
) -> SphericalJoint
    ensures { result ≡ D.with_impulses joint point.impulse spring.impulse motor.impulse limits.lower_impulse limits.upper_impulse cone.impulse }
{
    joint.linear_impulse = point.impulse;
    joint.spring_impulse = spring.impulse;
    joint.motor_impulse = motor.impulse;
    joint.lower_twist_impulse = limits.lower_impulse;
    joint.upper_twist_impulse = limits.upper_impulse;
    joint.swing_impulse = cone.impulse;
    joint
}

// What waits for no velocity (the cone's angle, the anchors and the point row's bias) is computed a
// row before the row that needs it, so that the processor has it to do while rows wait for each other.
#[tactic(auto, unfolding(crate::specs::Spherical::solve_spherical, crate::specs::Spherical::solve_point, crate::specs::Spherical::solve_bias))]
pub fn solve_spherical(
    base: JointBase,
    mut joint: SphericalJoint,
    h: f32,
    inv_h: f32,
    state_a: BodyState,
    state_b: BodyState,
    use_bias: bool,
) -> KindSolved<SphericalJoint>
    ensures { result ≡ D.solve_spherical base joint h inv_h state_a state_b use_bias }
{
    let m = inv_masses_of(base);
    let v = velocities_of(state_a, state_b);
    let rotation = joint_rotation(joint, state_a, state_b);
    let fixed = base.fixed_rotation;
    let s = base.constraint_softness;
    let spring = solve_spring(fixed, joint, rotation, m, v);
    let motor = solve_motor(fixed, joint, h, m, spring.velocities);
    let twist = twist_angle_if(is_worked(joint.enable_twist_limit, fixed), rotation.rel_q);
    let swing = swing_angle_if(is_worked(joint.enable_cone_limit, fixed), rotation.rel_q);
    let soft = LimitSoftness {
        softness: s,
        inv_h,
        use_bias,
    };
    let limits = solve_limits(fixed, joint, twist, soft, m, motor.velocities);
    let anchors = anchors_of(joint.frame_a, joint.frame_b, state_a, state_b);
    let bias = point_bias(use_bias, s, anchors, joint.delta_center, state_a, state_b);
    let cone = solve_cone(fixed, joint, swing, soft, m, limits.velocities);
    let v = cone.velocities;
    let cdot = point_cdot(anchors, v);
    let point = point_row(bias, cdot, anchors, joint.linear_impulse, m, v);
    joint = with_impulses(joint, point, spring, motor, limits, cone);
    let velocities = point.velocities;
    let report = Report {
        perp_mark: None,
        point_mark: Some(point.mark),
    };
    KindSolved {
        joint,
        angles: LimitAngles { twist, swing },
        velocities,
        report,
    }
}
