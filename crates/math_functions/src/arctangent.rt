// What the arctangent and the swing angle share.
ghost use Rattle.std.specs.Prelude.{◌≡◌};
ghost use Rattle.math_functions.specs.Steps as Steps;

use crate::scalar::{max_float, min_float};

// The angle of the point (x, y) in the first quadrant, where neither is below zero and one is above
// it: an approximate arctangent of y / x.
#[tactic(auto, unfolding(crate::specs::Steps::first_quadrant_angle, crate::specs::Scalar::atan_unit))]
pub fn first_quadrant_angle(y: f32, x: f32) -> f32
    ensures { result ≡ Steps.first_quadrant_angle y x }
{
    let mx = max_float(y, x);
    let mn = min_float(y, x);
    let a = mn / mx;

    // Minimax polynomial approximation to atan(a) on [0,1]
    let s = a * a;
    let c = s * a;
    let q = s * s;
    let mut r = 0.024840285 * q + 0.18681418;
    let t = -0.094097948 * q - 0.33213072;
    r = r * s + t;
    r = r * c + a;

    if y > x {
        r = 1.57079637 - r;
    }

    r
}
