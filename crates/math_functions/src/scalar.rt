// Scalars: absolute value, minimum, maximum, clamp, and the arctangent.
ghost use Rattle.std.specs.Prelude.{◌≡◌};
ghost use Rattle.math_functions.specs.Scalar as D;

use crate::arctangent::first_quadrant_angle;

// The absolute value of a float. -0.0 stays as it is, since it is not below zero.
#[tactic(auto, unfolding(crate::specs::Scalar::abs_float))]
pub fn abs_float(a: f32) -> f32
    ensures { result ≡ D.abs_float a }
{
    if a < 0.0 { -a } else { a }
}

// The minimum of two floats; b where one is a NaN.
#[tactic(auto, unfolding(crate::specs::Scalar::min_float))]
pub fn min_float(a: f32, b: f32) -> f32
    ensures { result ≡ D.min_float a b }
{
    if a < b { a } else { b }
}

// The maximum of two floats; b where one is a NaN.
#[tactic(auto, unfolding(crate::specs::Scalar::max_float))]
pub fn max_float(a: f32, b: f32) -> f32
    ensures { result ≡ D.max_float a b }
{
    if a > b { a } else { b }
}

// A float clamped between a lower and an upper bound. A NaN passes through.
#[tactic(auto, unfolding(crate::specs::Scalar::clamp_float))]
pub fn clamp_float(a: f32, lower: f32, upper: f32) -> f32
    ensures { result ≡ D.clamp_float a lower upper }
{
    if a < lower {
        lower
    } else if upper < a {
        upper
    } else {
        a
    }
}

// An approximate arctangent in the range [-pi, pi], the same on every machine.
#[tactic(auto, unfolding(crate::specs::Scalar::atan2, crate::specs::Steps::first_quadrant_angle))]
pub fn atan2(y: f32, x: f32) -> f32
    ensures { result ≡ D.atan2 y x }
{
    // (0, 0) is tested since 0 / 0 would be a NaN
    if x == 0.0 && y == 0.0 {
        return 0.0;
    }

    let ax = abs_float(x);
    let ay = abs_float(y);
    let mut r = first_quadrant_angle(ay, ax);

    // Map to full circle
    if x < 0.0 {
        r = 3.14159274 - r;
    }

    // A return, so that the compiler keeps the branch
    if y < 0.0 {
        return -r;
    }

    r
}
