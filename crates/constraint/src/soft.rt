// A row's bias with the two scales of its impulse, for rows of one, two and three dimensions, and
// the impulse of a soft row.
ghost use Rattle.std.specs.Prelude.{◌≡◌, Float};
ghost use Rattle.math_functions.specs.Float as Floats;
ghost use Rattle.math_functions.specs.Types as Types;
ghost use Rattle.math_functions.specs.Internal as Internal;
ghost use Rattle.math_functions.specs.Vector as Vectors;
ghost use Rattle.constraint.specs.Soft as D;

use math_functions::internal::{mul_sv2, sub2};
use math_functions::types::{VEC2_ZERO, VEC3_ZERO, Vec2, Vec3};
use math_functions::vector::{mul_sv, sub};
use solver::Softness;

// What a row of some dimension measures its error in: a number, or a vector of two or three.
pub trait Scaled: Copy {
    ghost zero: { Self };

    ghost times: { Float → Self → Self };

    ghost minus: { Self → Self → Self };

    fn zero() -> Self
        ensures { result ≡ zero };

    // s times the value
    fn scaled(self, s: f32) -> Self
        ensures { result ≡ times s self };

    fn minus(self, other: Self) -> Self
        ensures { result ≡ minus self other };
}

impl Scaled for f32 {
    ghost zero = { Floats.zero };

    ghost times = { D.times1 };

    ghost minus = { D.minus1 };

    fn zero() -> f32 {
        0.0
    }

    fn scaled(self, s: f32) -> f32 {
        s * self
    }

    fn minus(self, other: f32) -> f32 {
        self - other
    }
}

impl Scaled for Vec2 {
    ghost zero = { Types.vec2_zero };

    ghost times = { Internal.mul_sv2 };

    ghost minus = { Internal.sub2 };

    fn zero() -> Vec2 {
        VEC2_ZERO
    }

    fn scaled(self, s: f32) -> Vec2 {
        mul_sv2(s, self)
    }

    fn minus(self, other: Vec2) -> Vec2 {
        sub2(self, other)
    }
}

impl Scaled for Vec3 {
    ghost zero = { Types.vec3_zero };

    ghost times = { Vectors.mul_sv };

    ghost minus = { Vectors.sub };

    fn zero() -> Vec3 {
        VEC3_ZERO
    }

    fn scaled(self, s: f32) -> Vec3 {
        mul_sv(s, self)
    }

    fn minus(self, other: Vec3) -> Vec3 {
        sub(self, other)
    }
}

#[derive(Clone, Copy)]
pub struct SoftBias<V> {
    pub bias: V,
    pub mass_scale: f32,
    pub impulse_scale: f32,
}

// The bias of a row that is not softened.
pub fn rigid<V: Scaled>() -> SoftBias<V>
    ensures { result ≡ D.rigid_of V.zero }
{
    SoftBias {
        bias: V::zero(),
        mass_scale: 1.0,
        impulse_scale: 0.0,
    }
}

// The bias of a soft row, where c is the constraint's error.
#[tactic(auto, unfolding(crate::specs::Soft::soft_bias_of))]
pub fn soft_bias<V: Scaled>(softness: Softness, c: V) -> SoftBias<V>
    ensures { result ≡ D.soft_bias_of V.times softness c }
{
    SoftBias {
        bias: c.scaled(softness.bias_rate),
        mass_scale: softness.mass_scale,
        impulse_scale: softness.impulse_scale,
    }
}

// What softens a limit's rows: the joint's softness, the step, and whether the call has bias.
#[derive(Clone, Copy)]
pub struct LimitSoftness {
    pub softness: Softness,
    pub inv_h: f32,
    pub use_bias: bool,
}

// The bias of a limit row, where c is the gap. Above zero the bodies may close it within the step.
#[tactic(auto, unfolding(crate::specs::Soft::limit_bias))]
pub fn limit_bias(c: f32, soft: LimitSoftness) -> SoftBias<f32>
    ensures { result ≡ D.limit_bias c soft.softness soft.inv_h soft.use_bias }
{
    if c > 0.0 {
        // speculation
        SoftBias {
            bias: c * soft.inv_h,
            mass_scale: 1.0,
            impulse_scale: 0.0,
        }
    } else if soft.use_bias {
        soft_bias(soft.softness, c)
    } else {
        rigid()
    }
}

// The impulse of a soft row of one dimension, whose effective mass is `mass`.
#[tactic(auto, unfolding(crate::specs::Soft::soft_impulse))]
pub fn soft_impulse(s: SoftBias<f32>, mass: f32, cdot: f32, old_impulse: f32) -> f32
    ensures { result ≡ D.soft_impulse s mass cdot old_impulse }
{
    -s.mass_scale * mass * (cdot + s.bias) - s.impulse_scale * old_impulse
}

// The sum of a limit's impulse and what its row adds, before it is kept from falling below zero.
#[tactic(auto, unfolding(crate::specs::Soft::limit_sum))]
pub fn limit_sum(s: SoftBias<f32>, mass: f32, cdot: f32, old_impulse: f32) -> f32
    ensures { result ≡ D.limit_sum s mass cdot old_impulse }
{
    let delta_impulse = soft_impulse(s, mass, cdot, old_impulse);
    old_impulse + delta_impulse
}

// The impulse of a soft row of two or three dimensions, where b is what the row's mass made of the
// error. (A row of one multiplies by its mass in another order.)
#[tactic(auto, unfolding(crate::specs::Soft::soft_impulse_of))]
pub fn soft_impulse_of<V: Scaled>(s: SoftBias<V>, b: V, old_impulse: V) -> V
    ensures { result ≡ D.soft_impulse_of V.times V.minus s b old_impulse }
{
    b.scaled(-s.mass_scale)
        .minus(old_impulse.scaled(s.impulse_scale))
}
