// Quaternion operations.
ghost use Rattle.std.specs.Prelude.{◌≡◌, false};
ghost use Rattle.math_functions.specs.Float.{lt, zero};
ghost use Rattle.math_functions.specs.Quat as D;
ghost use Rattle.math_functions.specs.Scalar as Scalar;
ghost use Rattle.math_functions.specs.Steps as Steps;

use crate::arctangent::first_quadrant_angle;
use crate::scalar::atan2;
use crate::types::{Quat, Vec3};
use crate::vector::{cross, dot, mul_add, mul_sub, mul_sv, neg, sub};
use sqrt::sqrt;

// Rotate a vector.
#[tactic(auto, unfolding(crate::specs::Quat::rotate_vector))]
pub fn rotate_vector(q: Quat, v: Vec3) -> Vec3
    ensures { result ≡ D.rotate_vector q v }
{
    // v + 2 * cross(q.v, cross(q.v, v) + q.s * v)
    let t1 = cross(q.v, v);
    let t2 = mul_add(t1, q.s, v);
    let t3 = cross(q.v, t2);
    mul_add(v, 2.0, t3)
}

// Compute dot product of two quaternions. Useful for polarity tests.
#[tactic(auto, unfolding(crate::specs::Quat::dot_quat))]
pub fn dot_quat(a: Quat, b: Quat) -> f32
    ensures { result ≡ D.dot_quat a b }
{
    a.v.x * b.v.x + a.v.y * b.v.y + a.v.z * b.v.z + a.s * b.s
}

// Multiply two quaternions.
#[tactic(auto, unfolding(crate::specs::Quat::mul_quat))]
pub fn mul_quat(q1: Quat, q2: Quat) -> Quat
    ensures { result ≡ D.mul_quat q1 q2 }
{
    let t1 = cross(q1.v, q2.v);
    let t2 = mul_add(t1, q1.s, q2.v);
    let t3 = mul_add(t2, q2.s, q1.v);
    Quat {
        v: t3,
        s: q1.s * q2.s - dot(q1.v, q2.v),
    }
}

// Compute a relative quaternion.
// inv(q1) * q2
#[tactic(auto, unfolding(crate::specs::Quat::inv_mul_quat))]
pub fn inv_mul_quat(q1: Quat, q2: Quat) -> Quat
    ensures { result ≡ D.inv_mul_quat q1 q2 }
{
    let t1 = cross(q2.v, q1.v);
    let t2 = mul_add(t1, q1.s, q2.v);
    let t3 = mul_sub(t2, q2.s, q1.v);
    Quat {
        v: t3,
        s: q1.s * q2.s + dot(q1.v, q2.v),
    }
}

// Quaternion conjugate (cheap inverse).
#[tactic(auto, unfolding(crate::specs::Quat::conjugate, crate::specs::Vector::neg))]
pub fn conjugate(q: Quat) -> Quat
    ensures { result ≡ D.conjugate q }
{
    Quat {
        v: neg(q.v),
        s: q.s,
    }
}

// Component-wise quaternion negation.
#[tactic(auto, unfolding(crate::specs::Quat::negate_quat, crate::specs::Vector::neg))]
pub fn negate_quat(q: Quat) -> Quat
    ensures { result ≡ D.negate_quat q }
{
    Quat {
        v: neg(q.v),
        s: -q.s,
    }
}

// Twist angle around the z-axis, used for twist limit and revolute angle limit
#[tactic(auto, unfolding(crate::specs::Quat::get_twist_angle))]
pub fn get_twist_angle(q: Quat) -> f32
    ensures { result ≡ D.get_twist_angle q }
{
    // Account for polarity to keep the twist angle in range.
    let mut twist = if q.s < 0.0 {
        atan2(-q.v.z, -q.s)
    } else {
        atan2(q.v.z, q.s)
    };
    twist *= 2.0;
    twist
}

// Component-wise quaternion subtraction.
#[tactic(auto, unfolding(crate::specs::Steps::sub_quat))]
fn sub_quat(a: Quat, b: Quat) -> Quat
    ensures { result ≡ Steps.sub_quat a b }
{
    Quat {
        v: sub(a.v, b.v),
        s: a.s - b.s,
    }
}

// Pseudo angular velocity from a quaternion target.
// w = 2 * (target - q) * conj(q)
#[tactic(auto, unfolding(crate::specs::Quat::delta_quat_to_rotation, crate::specs::Steps::sub_quat))]
pub fn delta_quat_to_rotation(q: Quat, target: Quat) -> Vec3
    ensures { result ≡ D.delta_quat_to_rotation q target }
{
    // The difference is taken in the branch too, so that the compiler keeps the branch, which the
    // processor predicts. A choice between two values would have to wait for the dot product.
    let mut s = q;
    let mut diff = sub_quat(target, q);
    if dot_quat(q, target) < 0.0 {
        // Correct polarity
        s = negate_quat(q);
        diff = sub_quat(target, s);
    }
    let product = mul_quat(diff, conjugate(s));
    mul_sv(2.0, product.v)
}

// atan2 of a y and an x that are not below zero, such as square roots: it saves the time to look at
// their signs. A NaN and -0.0 are not below zero.
#[tactic(auto, unfolding(crate::specs::Scalar::atan2, crate::specs::Scalar::abs_float, crate::specs::Steps::first_quadrant_angle))]
fn atan2_non_negative(y: f32, x: f32) -> f32
    requires { (lt y zero ≡ false) × (lt x zero ≡ false) }
    ensures { result ≡ Scalar.atan2 y x }
{
    if x == 0.0 && y == 0.0 {
        return 0.0;
    }
    first_quadrant_angle(y, x)
}

// Swing angle used for cone limit
#[tactic(auto, unfolding(crate::specs::Quat::get_swing_angle))]
pub fn get_swing_angle(q: Quat) -> f32
    ensures { result ≡ D.get_swing_angle q }
{
    // Polarity should not matter because all terms are squared.
    let x = sqrt(q.v.z * q.v.z + q.s * q.s);
    let y = sqrt(q.v.x * q.v.x + q.v.y * q.v.y);
    2.0 * atan2_non_negative(y, x)
}
