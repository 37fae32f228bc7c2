// Matrix3 operations and the 2x2 matrix of the revolute joint.
ghost use Rattle.std.specs.Prelude.{◌≡◌};
ghost use Rattle.math_functions.specs.Mark.{marked};
ghost use Rattle.math_functions.specs.Matrix as D;

use crate::mark::{Mark, Marked};
use crate::scalar::abs_float;
use crate::types::{MAT3_ZERO, Matrix3, VEC2_ZERO, VEC3_ZERO, Vec2, Vec3};
use crate::vector::{add, cross, dot, neg};

// A 2x2 matrix, stored as columns.
#[derive(Clone, Copy)]
pub struct Mat2 {
    pub cx: Vec2,
    pub cy: Vec2,
}

// Compute the determinant of a 3-by-3 matrix.
#[tactic(auto, unfolding(crate::specs::Matrix::det))]
pub fn det(m: Matrix3) -> f32
    ensures { result ≡ D.det m }
{
    dot(m.cx, cross(m.cy, m.cz))
}

// Multiply a matrix times a column vector.
#[tactic(auto, unfolding(crate::specs::Matrix::mul_mv))]
pub fn mul_mv(m: Matrix3, a: Vec3) -> Vec3
    ensures { result ≡ D.mul_mv m a }
{
    Vec3 {
        x: m.cx.x * a.x + m.cy.x * a.y + m.cz.x * a.z,
        y: m.cx.y * a.x + m.cy.y * a.y + m.cz.y * a.z,
        z: m.cx.z * a.x + m.cy.z * a.y + m.cz.z * a.z,
    }
}

// Negate a matrix.
#[tactic(auto, unfolding(crate::specs::Matrix::negate_mat3, crate::specs::Vector::neg))]
pub fn negate_mat3(a: Matrix3) -> Matrix3
    ensures { result ≡ D.negate_mat3 a }
{
    Matrix3 {
        cx: neg(a.cx),
        cy: neg(a.cy),
        cz: neg(a.cz),
    }
}

// Matrix addition.
#[tactic(auto, unfolding(crate::specs::Matrix::add_mm, crate::specs::Vector::add))]
pub fn add_mm(a: Matrix3, b: Matrix3) -> Matrix3
    ensures { result ≡ D.add_mm a b }
{
    Matrix3 {
        cx: add(a.cx, b.cx),
        cy: add(a.cy, b.cy),
        cz: add(a.cz, b.cz),
    }
}

// Matrix multiplication.
#[tactic(auto, unfolding(crate::specs::Matrix::mul_mm))]
pub fn mul_mm(a: Matrix3, b: Matrix3) -> Matrix3
    ensures { result ≡ D.mul_mm a b }
{
    Matrix3 {
        cx: mul_mv(a, b.cx),
        cy: mul_mv(a, b.cy),
        cz: mul_mv(a, b.cz),
    }
}

// General matrix inverse. Row by row it is the cross products of the columns over the determinant,
// so each entry is computed at its own place: nothing is turned over afterwards.
pub fn invert_matrix(m: Matrix3) -> Marked<Matrix3>
    ensures { result ≡ marked (D.invert_matrix m) (D.invert_matrix_mark m) }
{
    let d = det(m);
    if abs_float(d) > 1000.0 * f32::MIN_POSITIVE {
        let inv_det = 1.0 / d;
        Marked {
            value: Matrix3 {
                cx: Vec3 {
                    x: inv_det * (m.cy.y * m.cz.z - m.cy.z * m.cz.y),
                    y: inv_det * (m.cz.y * m.cx.z - m.cz.z * m.cx.y),
                    z: inv_det * (m.cx.y * m.cy.z - m.cx.z * m.cy.y),
                },
                cy: Vec3 {
                    x: inv_det * (m.cy.z * m.cz.x - m.cy.x * m.cz.z),
                    y: inv_det * (m.cz.z * m.cx.x - m.cz.x * m.cx.z),
                    z: inv_det * (m.cx.z * m.cy.x - m.cx.x * m.cy.z),
                },
                cz: Vec3 {
                    x: inv_det * (m.cy.x * m.cz.y - m.cy.y * m.cz.x),
                    y: inv_det * (m.cz.x * m.cx.y - m.cz.y * m.cx.x),
                    z: inv_det * (m.cx.x * m.cy.y - m.cx.y * m.cy.x),
                },
            },
            mark: Mark::Solved,
        }
    } else {
        Marked {
            value: MAT3_ZERO,
            mark: Mark::FellBack,
        }
    }
}

// Solve a matrix equation: inv(m) * a
#[tactic(auto, unfolding(crate::specs::Matrix::solve3, crate::specs::Matrix::solve3_mark))]
pub fn solve3(m: Matrix3, a: Vec3) -> Marked<Vec3>
    ensures { result ≡ marked (D.solve3 m a) (D.solve3_mark m) }
{
    let d = det(m);
    if abs_float(d) > 1000.0 * f32::MIN_POSITIVE {
        let inv_det = 1.0 / d;
        let s = Matrix3 {
            cx: cross(m.cy, m.cz),
            cy: cross(m.cz, m.cx),
            cz: cross(m.cx, m.cy),
        };

        Marked {
            value: Vec3 {
                x: inv_det * dot(s.cx, a),
                y: inv_det * dot(s.cy, a),
                z: inv_det * dot(s.cz, a),
            },
            mark: Mark::Solved,
        }
    } else {
        Marked {
            value: VEC3_ZERO,
            mark: Mark::FellBack,
        }
    }
}

// The determinant of a 2-by-2 matrix.
#[tactic(auto, unfolding(crate::specs::Matrix::det2))]
pub fn det2(m: Mat2) -> f32
    ensures { result ≡ D.det2 m }
{
    m.cx.x * m.cy.y - m.cx.y * m.cy.x
}

// Solve A * x = b for a 2-by-2 matrix. Assumes positive semi-definite: a determinant below zero
// gives zeros, as one that is too small does.
#[tactic(auto, unfolding(crate::specs::Matrix::solve2, crate::specs::Matrix::solve2_mark))]
pub fn solve2(m: Mat2, b: Vec2) -> Marked<Vec2>
    ensures { result ≡ marked (D.solve2 m b) (D.solve2_mark m) }
{
    let d = det2(m);
    if d > 1000.0 * f32::MIN_POSITIVE {
        let inv_det = 1.0 / d;
        Marked {
            value: Vec2 {
                x: inv_det * m.cy.y * b.x - inv_det * m.cy.x * b.y,
                y: -inv_det * m.cx.y * b.x + inv_det * m.cx.x * b.y,
            },
            mark: Mark::Solved,
        }
    } else {
        Marked {
            value: VEC2_ZERO,
            mark: Mark::FellBack,
        }
    }
}

// Skew-symmetric cross-product matrix.
#[tactic(auto, unfolding(crate::specs::Matrix::skew))]
pub fn skew(v: Vec3) -> Matrix3
    ensures { result ≡ D.skew v }
{
    Matrix3 {
        cx: Vec3 {
            x: 0.0,
            y: v.z,
            z: -v.y,
        },
        cy: Vec3 {
            x: -v.z,
            y: 0.0,
            z: v.x,
        },
        cz: Vec3 {
            x: v.y,
            y: -v.x,
            z: 0.0,
        },
    }
}
