// The solve of a revolute joint by value, which works the rows.
ghost use Rattle.std.specs.Prelude.{◌≡◌};
ghost use Rattle.constraint.specs.Angular as Angular;
ghost use Rattle.revolute.specs.Revolute as D;

use crate::prepare::PerpAxes;
use crate::rows::{PerpRow, motor_row, perp_row, spring_row};
use constraint::angular::{
    LimitRows, Row, RowAxis, TwistLimit, is_worked, row_axis, twist_angle_if, twist_limit_rows,
};
use constraint::answer::Report;
use constraint::kind::KindSolved;
use constraint::point::{PointRow, point_bias, point_cdot, point_row};
use constraint::rotation::{RelativeRotation, flipped_relative_rotation};
use constraint::soft::LimitSoftness;
use constraint::velocity::{InvMasses, Velocities, anchors_of, inv_masses_of, velocities_of};
use math_functions::types::{Quat, nan};
use records::body::BodyState;
use records::joint::{JointBase, LimitAngles, RevoluteJoint};
use solver::Softness;

// Where frame B stands relative to frame A.
#[tactic(auto, unfolding(crate::specs::Revolute::joint_rotation))]
fn joint_rotation(joint: RevoluteJoint, state_a: BodyState, state_b: BodyState) -> RelativeRotation
    ensures { result ≡ D.joint_rotation joint state_a state_b }
{
    flipped_relative_rotation(
        state_a.delta_rotation,
        joint.frame_a.q,
        state_b.delta_rotation,
        joint.frame_b.q,
    )
}

// The rotation axis, about which the spring, the motor and the limit work.
fn axis_of(joint: RevoluteJoint) -> RowAxis
    ensures { result ≡ Angular.row_axis joint.rotation_axis_z joint.axial_mass }
{
    row_axis(joint.rotation_axis_z, joint.axial_mass)
}

// The spring row at the fields of the joint.
#[tactic(auto, unfolding(crate::specs::Revolute::solve_spring))]
fn solve_spring(
    fixed_rotation: bool,
    joint: RevoluteJoint,
    rel_q: Quat,
    m: InvMasses,
    v: Velocities,
) -> Row<f32>
    ensures { result ≡ D.solve_spring fixed_rotation joint rel_q m v }
{
    spring_row(
        is_worked(joint.enable_spring, fixed_rotation),
        rel_q,
        joint.target_angle,
        joint.spring_softness,
        axis_of(joint),
        joint.spring_impulse,
        m,
        v,
    )
}

// The motor row at the fields of the joint.
#[tactic(auto, unfolding(crate::specs::Revolute::solve_motor))]
fn solve_motor(
    fixed_rotation: bool,
    joint: RevoluteJoint,
    h: f32,
    m: InvMasses,
    v: Velocities,
) -> Row<f32>
    ensures { result ≡ D.solve_motor fixed_rotation joint h m v }
{
    motor_row(
        is_worked(joint.enable_motor, fixed_rotation),
        joint.motor_speed,
        joint.max_motor_torque,
        h,
        axis_of(joint),
        joint.motor_impulse,
        m,
        v,
    )
}

// What the rows of the limit are worked with, at a twist angle.
fn twist_limit(joint: RevoluteJoint, angle: f32) -> TwistLimit
    ensures { result ≡ D.twist_limit joint angle }
{
    let about = axis_of(joint);
    TwistLimit {
        angle,
        lower_angle: joint.lower_angle,
        upper_angle: joint.upper_angle,
        about,
        lower_impulse: joint.lower_impulse,
        upper_impulse: joint.upper_impulse,
    }
}

// The two limit rows at the fields of the joint.
#[tactic(auto, unfolding(crate::specs::Revolute::solve_limits))]
fn solve_limits(
    fixed_rotation: bool,
    joint: RevoluteJoint,
    angle: f32,
    soft: LimitSoftness,
    m: InvMasses,
    v: Velocities,
) -> LimitRows
    ensures { result ≡ D.solve_limits fixed_rotation soft.softness joint angle soft.inv_h soft.use_bias m v }
{
    let worked = is_worked(joint.enable_limit, fixed_rotation);
    twist_limit_rows(worked, twist_limit(joint, angle), soft, m, v)
}

// The perpendicular row at the fields of the joint. It has no switch.
#[tactic(auto, unfolding(crate::specs::Revolute::solve_perp))]
fn solve_perp(
    fixed_rotation: bool,
    softness: Softness,
    joint: RevoluteJoint,
    rotation: RelativeRotation,
    use_bias: bool,
    m: InvMasses,
    v: Velocities,
) -> PerpRow
    ensures { result ≡ D.solve_perp fixed_rotation softness joint rotation use_bias m v }
{
    let x = joint.perp_axis_x;
    let y = joint.perp_axis_y;
    perp_row(
        !fixed_rotation,
        rotation,
        softness,
        use_bias,
        PerpAxes { x, y },
        joint.perp_impulse,
        m,
        v,
    )
}

// The joint with the impulses and the perpendicular axes that its rows leave.
fn with_impulses(
    mut joint: RevoluteJoint,
    point: PointRow,
    perp: PerpRow,
    spring: Row<f32>,
    motor: Row<f32>,
    limits: LimitRows,
) -> RevoluteJoint
    ensures { result ≡ D.with_impulses joint point.impulse perp.perp_impulse spring.impulse motor.impulse limits.lower_impulse limits.upper_impulse
        perp.axes.x perp.axes.y }
{
    joint.linear_impulse = point.impulse;
    joint.perp_impulse = perp.perp_impulse;
    joint.spring_impulse = spring.impulse;
    joint.motor_impulse = motor.impulse;
    joint.lower_impulse = limits.lower_impulse;
    joint.upper_impulse = limits.upper_impulse;
    joint.perp_axis_x = perp.axes.x;
    joint.perp_axis_y = perp.axes.y;
    joint
}

// The rows in order, each on the velocities that the row before it left. The anchors and the point row's
// bias wait for no velocity: they are computed a row before that row.
#[tactic(auto, using(crate::proofs::Point::point_row_is), unfolding(crate::specs::Revolute::solve_revolute, crate::specs::Revolute::solve_point))]
pub fn solve_revolute(
    base: JointBase,
    mut joint: RevoluteJoint,
    h: f32,
    inv_h: f32,
    state_a: BodyState,
    state_b: BodyState,
    use_bias: bool,
) -> KindSolved<RevoluteJoint>
    ensures { result ≡ D.solve_revolute base joint h inv_h state_a state_b use_bias }
{
    let fixed = base.fixed_rotation;
    let s = base.constraint_softness;
    let m = inv_masses_of(base);
    let v = velocities_of(state_a, state_b);
    let turn = joint_rotation(joint, state_a, state_b);
    let spring = solve_spring(fixed, joint, turn.rel_q, m, v);
    let motor = solve_motor(fixed, joint, h, m, spring.velocities);
    let v = motor.velocities;
    let twist = twist_angle_if(is_worked(joint.enable_limit, fixed), turn.rel_q);
    let soft = LimitSoftness {
        softness: s,
        inv_h,
        use_bias,
    };
    let limits = solve_limits(fixed, joint, twist, soft, m, v);
    let anchors = anchors_of(joint.frame_a, joint.frame_b, state_a, state_b);
    let bias = point_bias(use_bias, s, anchors, joint.delta_center, state_a, state_b);
    let perp = solve_perp(fixed, s, joint, turn, use_bias, m, limits.velocities);
    let v = perp.velocities;
    let cdot = point_cdot(anchors, v);
    let point = point_row(bias, cdot, anchors, joint.linear_impulse, m, v);
    joint = with_impulses(joint, point, perp, spring, motor, limits);
    let angles = LimitAngles {
        twist,
        swing: nan(),
    };
    let velocities = point.velocities;
    let report = Report {
        perp_mark: perp.mark,
        point_mark: Some(point.mark),
    };
    KindSolved {
        joint,
        angles,
        velocities,
        report,
    }
}
