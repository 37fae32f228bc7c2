// World positions.
ghost use Rattle.std.specs.Prelude.{◌≡◌};
ghost use Rattle.math_functions.specs.Transform as D;

use crate::types::{Pos, Vec3};
use crate::vector::sub;

// a - b. In the build without double precision nothing is left to demote.
#[tactic(auto, unfolding(crate::specs::Transform::sub_pos, crate::specs::Vector::sub))]
pub fn sub_pos(a: Pos, b: Pos) -> Vec3
    ensures { result ≡ D.sub_pos a b }
{
    sub(a, b)
}
