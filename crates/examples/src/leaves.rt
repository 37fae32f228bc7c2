// Examples 1 to 12: the leaves.
use crate::words::{MINUS_TWO, MINUS_ZERO, ONE, THREE, TWO, ZERO, holds};
use math_functions::matrix::{Mat2, solve2, solve3};
use math_functions::scalar::{clamp_float, max_float};
use math_functions::types::{MAT3_ZERO, Matrix3, VEC3_ZERO, Vec2, Vec3};
use solver::make_soft;
use sqrt::sqrt;

pub fn is_1() -> bool {
    holds([max_float(0.0 / 0.0, 0.0)], [ZERO])
}

pub fn is_2() -> bool {
    holds([max_float(-0.0, 0.0)], [ZERO])
}

pub fn is_3() -> bool {
    holds([clamp_float(5.0, 2.0, -2.0)], [MINUS_TWO])
}

pub fn is_4() -> bool {
    holds([clamp_float(0.0, 2.0, -2.0)], [TWO])
}

pub fn is_5() -> bool {
    let s = make_soft(0.0, 1.0, 1.0);
    holds(
        [s.bias_rate, s.mass_scale, s.impulse_scale],
        [ZERO, ZERO, ZERO],
    )
}

const TWO_FOUR_SIX: Vec3 = Vec3 {
    x: 2.0,
    y: 4.0,
    z: 6.0,
};

const TWICE_IDENTITY: Matrix3 = Matrix3 {
    cx: Vec3 {
        x: 2.0,
        ..VEC3_ZERO
    },
    cy: Vec3 {
        y: 2.0,
        ..VEC3_ZERO
    },
    cz: Vec3 {
        z: 2.0,
        ..VEC3_ZERO
    },
};

pub fn is_6() -> bool {
    let x = solve3(TWICE_IDENTITY, TWO_FOUR_SIX).value;
    holds([x.x, x.y, x.z], [ONE, TWO, THREE])
}

pub fn is_7() -> bool {
    let x = solve3(MAT3_ZERO, TWO_FOUR_SIX).value;
    holds([x.x, x.y, x.z], [ZERO, ZERO, ZERO])
}

fn diagonal(x: f32, y: f32) -> Mat2 {
    Mat2 {
        cx: Vec2 { x, y: 0.0 },
        cy: Vec2 { x: 0.0, y },
    }
}

const TWO_FOUR: Vec2 = Vec2 { x: 2.0, y: 4.0 };

pub fn is_8() -> bool {
    let x = solve2(diagonal(2.0, 4.0), TWO_FOUR).value;
    holds([x.x, x.y], [ONE, ONE])
}

pub fn is_9() -> bool {
    let x = solve2(diagonal(2.0, -4.0), TWO_FOUR).value;
    holds([x.x, x.y], [ZERO, ZERO])
}

pub fn is_10() -> bool {
    holds([sqrt(4.0)], [TWO])
}

pub fn is_11() -> bool {
    holds([sqrt(-0.0)], [MINUS_ZERO])
}

pub fn is_12() -> bool {
    holds([sqrt(2.0)], [0x3fb5_04f3])
}
