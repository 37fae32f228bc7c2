// Math types and constants.
ghost use Rattle.std.specs.Prelude.{◌≡◌};
ghost use Rattle.std.specs.Float.Ieee as Ieee;

// A 2D vector.
#[derive(Clone, Copy)]
pub struct Vec2 {
    pub x: f32,
    pub y: f32,
}

// A 3D vector.
#[derive(Clone, Copy)]
pub struct Vec3 {
    pub x: f32,
    pub y: f32,
    pub z: f32,
}

// A quaternion.
#[derive(Clone, Copy)]
pub struct Quat {
    pub v: Vec3,
    pub s: f32,
}

// A rigid transform.
#[derive(Clone, Copy)]
pub struct Transform {
    pub p: Vec3,
    pub q: Quat,
}

// A world position, in the build without double precision.
pub type Pos = Vec3;

// A 3x3 matrix, stored as columns.
#[derive(Clone, Copy)]
pub struct Matrix3 {
    pub cx: Vec3,
    pub cy: Vec3,
    pub cz: Vec3,
}

pub const PI: f32 = 3.14159265358979323846264338327950288;

// A NaN, of which the pattern is left free. A clause knows the constant by a pattern; that it is the NaN
// is said here once.
pub fn nan() -> f32
    ensures { result ≡ Ieee.nan }
{
    f32::NAN
}

pub const VEC2_ZERO: Vec2 = Vec2 { x: 0.0, y: 0.0 };

pub const VEC3_ZERO: Vec3 = Vec3 {
    x: 0.0,
    y: 0.0,
    z: 0.0,
};

pub const VEC3_AXIS_X: Vec3 = Vec3 {
    x: 1.0,
    y: 0.0,
    z: 0.0,
};

pub const VEC3_AXIS_Y: Vec3 = Vec3 {
    x: 0.0,
    y: 1.0,
    z: 0.0,
};

pub const VEC3_AXIS_Z: Vec3 = Vec3 {
    x: 0.0,
    y: 0.0,
    z: 1.0,
};

pub const QUAT_IDENTITY: Quat = Quat {
    v: VEC3_ZERO,
    s: 1.0,
};

pub const MAT3_ZERO: Matrix3 = Matrix3 {
    cx: VEC3_ZERO,
    cy: VEC3_ZERO,
    cz: VEC3_ZERO,
};

pub const TRANSFORM_IDENTITY: Transform = Transform {
    p: VEC3_ZERO,
    q: QUAT_IDENTITY,
};
