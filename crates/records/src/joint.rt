// Joint records: the three kinds, the union of them, the part that all kinds share, and the angles of
// the limits.
ghost use Rattle.std.specs.Prelude.{◌≡◌};
ghost use Rattle.records.specs.declared.joint.JointUnion.TheVariants.{Revolute, Spherical, Weld};
ghost use Rattle.records.specs.Joint as D;
ghost use Rattle.records.specs.Revolute as R;
ghost use Rattle.records.specs.Spherical as S;
ghost use Rattle.records.specs.Weld as W;

use crate::NULL_INDEX;
use crate::refusal::WrongKind;
use math_functions::types::{
    MAT3_ZERO, Matrix3, QUAT_IDENTITY, Quat, TRANSFORM_IDENTITY, Transform, VEC2_ZERO, VEC3_ZERO,
    Vec2, Vec3, nan,
};
use solver::{NO_SOFTNESS, Softness};

// Joint type enumeration.
#[derive(Clone, Copy, PartialEq, Eq, Debug)]
pub enum JointType {
    Parallel,
    Distance,
    Filter,
    Motor,
    Prismatic,
    Revolute,
    Spherical,
    Weld,
    Wheel,
}

#[derive(Clone, Copy)]
pub struct RevoluteJoint {
    pub linear_impulse: Vec3,
    pub perp_impulse: Vec2,
    pub spring_impulse: f32,
    pub motor_impulse: f32,
    pub lower_impulse: f32,
    pub upper_impulse: f32,
    pub hertz: f32,
    pub damping_ratio: f32,
    pub max_motor_torque: f32,
    pub motor_speed: f32,
    pub target_angle: f32,
    pub lower_angle: f32,
    pub upper_angle: f32,

    pub index_a: i32,
    pub index_b: i32,
    pub frame_a: Transform,
    pub frame_b: Transform,
    pub rotation_axis_z: Vec3,
    pub perp_axis_x: Vec3,
    pub perp_axis_y: Vec3,
    pub delta_center: Vec3,
    pub delta_angle: f32,
    pub axial_mass: f32,
    pub spring_softness: Softness,

    pub enable_spring: bool,
    pub enable_motor: bool,
    pub enable_limit: bool,
}

// The Rust's default.
pub const DEFAULT_REVOLUTE_JOINT: RevoluteJoint = RevoluteJoint {
    linear_impulse: VEC3_ZERO,
    perp_impulse: VEC2_ZERO,
    spring_impulse: 0.0,
    motor_impulse: 0.0,
    lower_impulse: 0.0,
    upper_impulse: 0.0,
    hertz: 0.0,
    damping_ratio: 0.0,
    max_motor_torque: 0.0,
    motor_speed: 0.0,
    target_angle: 0.0,
    lower_angle: 0.0,
    upper_angle: 0.0,
    index_a: NULL_INDEX,
    index_b: NULL_INDEX,
    frame_a: TRANSFORM_IDENTITY,
    frame_b: TRANSFORM_IDENTITY,
    rotation_axis_z: VEC3_ZERO,
    perp_axis_x: VEC3_ZERO,
    perp_axis_y: VEC3_ZERO,
    delta_center: VEC3_ZERO,
    delta_angle: 0.0,
    axial_mass: 0.0,
    spring_softness: NO_SOFTNESS,
    enable_spring: false,
    enable_motor: false,
    enable_limit: false,
};

impl Default for RevoluteJoint {
    ghost is_default = { λ j. j ≡ R.default_revolute };

    fn default() -> RevoluteJoint {
        DEFAULT_REVOLUTE_JOINT
    }
}

#[derive(Clone, Copy)]
pub struct SphericalJoint {
    pub linear_impulse: Vec3,
    pub spring_impulse: Vec3,
    pub motor_impulse: Vec3,
    pub lower_twist_impulse: f32,
    pub upper_twist_impulse: f32,
    pub swing_impulse: f32,
    pub hertz: f32,
    pub damping_ratio: f32,
    pub max_motor_torque: f32,
    pub motor_velocity: Vec3,
    pub lower_twist_angle: f32,
    pub upper_twist_angle: f32,
    pub cone_angle: f32,
    pub target_rotation: Quat,

    pub index_a: i32,
    pub index_b: i32,
    pub frame_a: Transform,
    pub frame_b: Transform,
    pub delta_center: Vec3,
    pub swing_axis: Vec3,
    pub twist_jacobian: Vec3,

    pub rotation_mass: Matrix3,
    pub swing_mass: f32,
    pub twist_mass: f32,
    pub spring_softness: Softness,

    pub enable_spring: bool,
    pub enable_motor: bool,
    pub enable_cone_limit: bool,
    pub enable_twist_limit: bool,
}

// The Rust's default.
pub const DEFAULT_SPHERICAL_JOINT: SphericalJoint = SphericalJoint {
    linear_impulse: VEC3_ZERO,
    spring_impulse: VEC3_ZERO,
    motor_impulse: VEC3_ZERO,
    lower_twist_impulse: 0.0,
    upper_twist_impulse: 0.0,
    swing_impulse: 0.0,
    hertz: 0.0,
    damping_ratio: 0.0,
    max_motor_torque: 0.0,
    motor_velocity: VEC3_ZERO,
    lower_twist_angle: 0.0,
    upper_twist_angle: 0.0,
    cone_angle: 0.0,
    target_rotation: QUAT_IDENTITY,
    index_a: NULL_INDEX,
    index_b: NULL_INDEX,
    frame_a: TRANSFORM_IDENTITY,
    frame_b: TRANSFORM_IDENTITY,
    delta_center: VEC3_ZERO,
    swing_axis: VEC3_ZERO,
    twist_jacobian: VEC3_ZERO,
    rotation_mass: MAT3_ZERO,
    swing_mass: 0.0,
    twist_mass: 0.0,
    spring_softness: NO_SOFTNESS,
    enable_spring: false,
    enable_motor: false,
    enable_cone_limit: false,
    enable_twist_limit: false,
};

impl Default for SphericalJoint {
    ghost is_default = { λ j. j ≡ S.default_spherical };

    fn default() -> SphericalJoint {
        DEFAULT_SPHERICAL_JOINT
    }
}

#[derive(Clone, Copy)]
pub struct WeldJoint {
    pub linear_hertz: f32,
    pub linear_damping_ratio: f32,
    pub angular_hertz: f32,
    pub angular_damping_ratio: f32,

    pub linear_spring: Softness,
    pub angular_spring: Softness,
    pub linear_impulse: Vec3,
    pub angular_impulse: Vec3,

    pub index_a: i32,
    pub index_b: i32,
    pub frame_a: Transform,
    pub frame_b: Transform,
    pub delta_center: Vec3,

    pub angular_mass: Matrix3,
}

// The Rust's default.
pub const DEFAULT_WELD_JOINT: WeldJoint = WeldJoint {
    linear_hertz: 0.0,
    linear_damping_ratio: 0.0,
    angular_hertz: 0.0,
    angular_damping_ratio: 0.0,
    linear_spring: NO_SOFTNESS,
    angular_spring: NO_SOFTNESS,
    linear_impulse: VEC3_ZERO,
    angular_impulse: VEC3_ZERO,
    index_a: NULL_INDEX,
    index_b: NULL_INDEX,
    frame_a: TRANSFORM_IDENTITY,
    frame_b: TRANSFORM_IDENTITY,
    delta_center: VEC3_ZERO,
    angular_mass: MAT3_ZERO,
};

impl Default for WeldJoint {
    ghost is_default = { λ j. j ≡ W.default_weld };

    fn default() -> WeldJoint {
        DEFAULT_WELD_JOINT
    }
}

// The joint's kind with its record. The kinds that are not ported share one empty case.
#[derive(Clone, Copy)]
pub enum JointUnion {
    Revolute(RevoluteJoint),
    Spherical(SphericalJoint),
    Weld(WeldJoint),
    Other,
}

impl From<RevoluteJoint> for JointUnion {
    ghost from_gives = { λ j u. u ≡ Revolute j };

    fn from(joint: RevoluteJoint) -> JointUnion {
        JointUnion::Revolute(joint)
    }
}

impl TryFrom<JointUnion> for RevoluteJoint {
    type Error = WrongKind;

    ghost try_from_gives = { λ u r. D.Opened (D.as_revolute u) r };

    fn try_from(union_: JointUnion) -> Result<RevoluteJoint, WrongKind> {
        match union_ {
            JointUnion::Revolute(joint) => Ok(joint),
            _ => Err(WrongKind),
        }
    }
}

impl From<SphericalJoint> for JointUnion {
    ghost from_gives = { λ j u. u ≡ Spherical j };

    fn from(joint: SphericalJoint) -> JointUnion {
        JointUnion::Spherical(joint)
    }
}

impl TryFrom<JointUnion> for SphericalJoint {
    type Error = WrongKind;

    ghost try_from_gives = { λ u r. D.Opened (D.as_spherical u) r };

    fn try_from(union_: JointUnion) -> Result<SphericalJoint, WrongKind> {
        match union_ {
            JointUnion::Spherical(joint) => Ok(joint),
            _ => Err(WrongKind),
        }
    }
}

impl From<WeldJoint> for JointUnion {
    ghost from_gives = { λ j u. u ≡ Weld j };

    fn from(joint: WeldJoint) -> JointUnion {
        JointUnion::Weld(joint)
    }
}

impl TryFrom<JointUnion> for WeldJoint {
    type Error = WrongKind;

    ghost try_from_gives = { λ u r. D.Opened (D.as_weld u) r };

    fn try_from(union_: JointUnion) -> Result<WeldJoint, WrongKind> {
        match union_ {
            JointUnion::Weld(joint) => Ok(joint),
            _ => Err(WrongKind),
        }
    }
}

// The base joint simulation class, all but the union.
#[derive(Clone, Copy)]
pub struct JointBase {
    pub joint_id: i32,

    pub body_id_a: i32,
    pub body_id_b: i32,

    pub type_: JointType,

    // Joint frames local to body origin
    pub local_frame_a: Transform,
    pub local_frame_b: Transform,

    pub inv_mass_a: f32,
    pub inv_mass_b: f32,
    pub inv_i_a: Matrix3,
    pub inv_i_b: Matrix3,

    pub constraint_hertz: f32,
    pub constraint_damping_ratio: f32,

    pub constraint_softness: Softness,

    pub force_threshold: f32,
    pub torque_threshold: f32,

    pub fixed_rotation: bool,
}

// The angles at which the last solve worked the joint's limits: the twist angle of a revolute joint's
// limit or a spherical one's twist limit, the swing angle of its cone. NaN where it did not work that
// row, where the kind has no such row, and in both where no solve was since the prepare.
#[derive(Clone, Copy)]
pub struct LimitAngles {
    pub twist: f32,
    pub swing: f32,
}

pub fn no_angles() -> LimitAngles
    ensures { result ≡ D.no_angles }
{
    LimitAngles {
        twist: nan(),
        swing: nan(),
    }
}

// A joint: the Rust's JointSim in two parts, since the rows read the first part of every kind, and
// beside it the two angles, which the Rust does not keep.
#[derive(Clone, Copy)]
pub struct JointSim {
    pub base: JointBase,
    pub union_: JointUnion,
    pub angles: LimitAngles,
}

// The Rust's default of JointSim, all but the union.
pub const DEFAULT_JOINT_BASE: JointBase = JointBase {
    joint_id: NULL_INDEX,
    body_id_a: NULL_INDEX,
    body_id_b: NULL_INDEX,
    type_: JointType::Distance,
    local_frame_a: TRANSFORM_IDENTITY,
    local_frame_b: TRANSFORM_IDENTITY,
    inv_mass_a: 0.0,
    inv_mass_b: 0.0,
    inv_i_a: MAT3_ZERO,
    inv_i_b: MAT3_ZERO,
    constraint_hertz: 0.0,
    constraint_damping_ratio: 0.0,
    constraint_softness: NO_SOFTNESS,
    force_threshold: 0.0,
    torque_threshold: 0.0,
    fixed_rotation: false,
};

// A joint that is not in use: the default, with the empty case and NaN in both angles. (A function, since a
// clause knows the constant NaN by a pattern only.)
pub fn unused_joint() -> JointSim
    ensures { result ≡ D.unused_joint }
{
    let angles = no_angles();
    JointSim {
        base: DEFAULT_JOINT_BASE,
        union_: JointUnion::Other,
        angles,
    }
}

// A joint of its three parts.
pub fn joint_sim(base: JointBase, union_: JointUnion, angles: LimitAngles) -> JointSim
    ensures { result ≡ D.joint_sim base union_ angles }
{
    JointSim {
        base,
        union_,
        angles,
    }
}
