// The rotation of frame B relative to frame A, in which the angular rows measure their errors.
ghost use Rattle.std.specs.Prelude.{◌≡◌};
ghost use Rattle.constraint.specs.Rotation as D;

use math_functions::quat::{
    delta_quat_to_rotation, dot_quat, inv_mul_quat, mul_quat, negate_quat, rotate_vector,
};
use math_functions::types::{Quat, Vec3};
use math_functions::vector::neg;

#[derive(Clone, Copy)]
pub struct RelativeRotation {
    pub quat_a: Quat,
    pub rel_q: Quat,
}

// q, or -q where q lies on the other side from p, as revolute and weld joints take the second
// quaternion. This keeps the rotation angle in [-pi, pi].
#[tactic(auto, unfolding(crate::specs::Rotation::same_polarity))]
pub fn same_polarity(p: Quat, q: Quat) -> Quat
    ensures { result ≡ D.same_polarity p q }
{
    if dot_quat(p, q) < 0.0 {
        negate_quat(q)
    } else {
        q
    }
}

// Spherical joints take the second quaternion as it is.
#[tactic(auto, unfolding(crate::specs::Rotation::relative_rotation))]
pub fn relative_rotation(
    delta_a: Quat,
    frame_a: Quat,
    delta_b: Quat,
    frame_b: Quat,
) -> RelativeRotation
    ensures { result ≡ D.relative_rotation delta_a frame_a delta_b frame_b }
{
    let quat_a = mul_quat(delta_a, frame_a);
    let quat_b = mul_quat(delta_b, frame_b);
    let rel_q = inv_mul_quat(quat_a, quat_b);
    RelativeRotation { quat_a, rel_q }
}

// Revolute and weld joints, in a solve, take it on the side of the first.
#[inline(always)]
#[tactic(auto, unfolding(crate::specs::Rotation::flipped_relative_rotation))]
pub fn flipped_relative_rotation(
    delta_a: Quat,
    frame_a: Quat,
    delta_b: Quat,
    frame_b: Quat,
) -> RelativeRotation
    ensures { result ≡ D.flipped_relative_rotation delta_a frame_a delta_b frame_b }
{
    let quat_a = mul_quat(delta_a, frame_a);
    let quat_b = same_polarity(quat_a, mul_quat(delta_b, frame_b));
    let rel_q = inv_mul_quat(quat_a, quat_b);
    RelativeRotation { quat_a, rel_q }
}

// The error of a rotation: minus the rotation that takes rel_q to the target, turned into the world.
#[inline(always)]
pub fn rotation_error(rotation: RelativeRotation, target: Quat) -> Vec3
    ensures { result ≡ D.rotation_error rotation target }
{
    let delta_rotation = delta_quat_to_rotation(rotation.rel_q, target);
    neg(rotate_vector(rotation.quat_a, delta_rotation))
}
