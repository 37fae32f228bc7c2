// Vec3 arithmetic, length and normalize.
ghost use Rattle.std.specs.Prelude.{◌≡◌};
ghost use Rattle.math_functions.specs.Vector as D;

use crate::types::{VEC3_ZERO, Vec3};
use sqrt::sqrt;

// Vector addition.
#[tactic(auto, unfolding(crate::specs::Vector::add))]
pub fn add(a: Vec3, b: Vec3) -> Vec3
    ensures { result ≡ D.add a b }
{
    Vec3 {
        x: a.x + b.x,
        y: a.y + b.y,
        z: a.z + b.z,
    }
}

// Vector subtraction.
#[tactic(auto, unfolding(crate::specs::Vector::sub))]
pub fn sub(a: Vec3, b: Vec3) -> Vec3
    ensures { result ≡ D.sub a b }
{
    Vec3 {
        x: a.x - b.x,
        y: a.y - b.y,
        z: a.z - b.z,
    }
}

// Vector negation.
#[tactic(auto, unfolding(crate::specs::Vector::neg))]
pub fn neg(a: Vec3) -> Vec3
    ensures { result ≡ D.neg a }
{
    Vec3 {
        x: -a.x,
        y: -a.y,
        z: -a.z,
    }
}

// Vector dot product.
#[tactic(auto, unfolding(crate::specs::Vector::dot))]
pub fn dot(a: Vec3, b: Vec3) -> f32
    ensures { result ≡ D.dot a b }
{
    a.x * b.x + a.y * b.y + a.z * b.z
}

// Vector length.
#[tactic(auto, unfolding(crate::specs::Vector::length))]
pub fn length(v: Vec3) -> f32
    ensures { result ≡ D.length v }
{
    sqrt(dot(v, v))
}

// Normalize a vector. Returns a zero vector if the input vector is very small.
#[tactic(auto, unfolding(crate::specs::Vector::normalize))]
pub fn normalize(a: Vec3) -> Vec3
    ensures { result ≡ D.normalize a }
{
    let length_squared = a.x * a.x + a.y * a.y + a.z * a.z;

    if length_squared > 1000.0 * f32::MIN_POSITIVE {
        let s = 1.0 / sqrt(length_squared);
        Vec3 {
            x: s * a.x,
            y: s * a.y,
            z: s * a.z,
        }
    } else {
        VEC3_ZERO
    }
}

// a + s * b
#[tactic(auto, unfolding(crate::specs::Vector::mul_add))]
pub fn mul_add(a: Vec3, s: f32, b: Vec3) -> Vec3
    ensures { result ≡ D.mul_add a s b }
{
    Vec3 {
        x: a.x + s * b.x,
        y: a.y + s * b.y,
        z: a.z + s * b.z,
    }
}

// a - s * b
#[tactic(auto, unfolding(crate::specs::Vector::mul_sub))]
pub fn mul_sub(a: Vec3, s: f32, b: Vec3) -> Vec3
    ensures { result ≡ D.mul_sub a s b }
{
    Vec3 {
        x: a.x - s * b.x,
        y: a.y - s * b.y,
        z: a.z - s * b.z,
    }
}

// s * a
#[tactic(auto, unfolding(crate::specs::Vector::mul_sv))]
pub fn mul_sv(s: f32, a: Vec3) -> Vec3
    ensures { result ≡ D.mul_sv s a }
{
    Vec3 {
        x: s * a.x,
        y: s * a.y,
        z: s * a.z,
    }
}

// Vector cross product.
#[tactic(auto, unfolding(crate::specs::Vector::cross))]
pub fn cross(a: Vec3, b: Vec3) -> Vec3
    ensures { result ≡ D.cross a b }
{
    Vec3 {
        x: a.y * b.z - a.z * b.y,
        y: a.z * b.x - a.x * b.z,
        z: a.x * b.y - a.y * b.x,
    }
}
