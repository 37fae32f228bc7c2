// Vec2 arithmetic, by the Rust's names beside those of Vec3: rows of either go by the trait `Scaled` of the
// crate constraint.
ghost use Rattle.std.specs.Prelude.{◌≡◌};
ghost use Rattle.math_functions.specs.Internal as D;

use crate::types::Vec2;

// 2D vector addition.
#[tactic(auto, unfolding(crate::specs::Internal::add2))]
pub fn add2(a: Vec2, b: Vec2) -> Vec2
    ensures { result ≡ D.add2 a b }
{
    Vec2 {
        x: a.x + b.x,
        y: a.y + b.y,
    }
}

// 2D vector subtraction.
#[tactic(auto, unfolding(crate::specs::Internal::sub2))]
pub fn sub2(a: Vec2, b: Vec2) -> Vec2
    ensures { result ≡ D.sub2 a b }
{
    Vec2 {
        x: a.x - b.x,
        y: a.y - b.y,
    }
}

// 2D scalar multiply.
#[tactic(auto, unfolding(crate::specs::Internal::mul_sv2))]
pub fn mul_sv2(s: f32, v: Vec2) -> Vec2
    ensures { result ≡ D.mul_sv2 s v }
{
    Vec2 {
        x: s * v.x,
        y: s * v.y,
    }
}
