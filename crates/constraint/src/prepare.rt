// What prepare does alike for the three kinds.
ghost use Rattle.std.specs.Prelude.{◌≡◌};
ghost use Rattle.constraint.specs.Prepare as D;

use math_functions::matrix::{add_mm, det, mul_mv};
use math_functions::quat::{mul_quat, rotate_vector};
use math_functions::types::{Matrix3, Transform, Vec3};
use math_functions::vector::{dot, sub};
use records::body::BodyRecord;
use records::joint::JointBase;
use records::{AWAKE_SET, NULL_INDEX};

// The base with the masses of the two bodies. Rotation is fixed where the determinant of the summed
// inverse inertias is below 1000 * 2^-126: so where it is negative, and not where it is a NaN.
#[tactic(auto, unfolding(crate::specs::Prepare::prepare_base))]
pub fn prepare_base(base: JointBase, body_a: BodyRecord, body_b: BodyRecord) -> JointBase
    ensures { result ≡ D.prepare_base base body_a body_b }
{
    let mut out = base;
    let i_a = body_a.inv_inertia_world;
    let i_b = body_b.inv_inertia_world;
    out.inv_mass_a = body_a.inv_mass;
    out.inv_mass_b = body_b.inv_mass;
    out.inv_i_a = i_a;
    out.inv_i_b = i_b;
    let fixed_rotation = det(add_mm(i_a, i_b)) < 1000.0 * f32::MIN_POSITIVE;
    out.fixed_rotation = fixed_rotation;
    out
}

// The index of a body's state: its local index while it is awake.
#[tactic(auto, unfolding(crate::specs::Prepare::awake_index))]
pub fn awake_index(body: BodyRecord) -> i32
    ensures { result ≡ D.awake_index body }
{
    if body.set_index == AWAKE_SET {
        return body.local_index;
    }
    NULL_INDEX
}

// A joint frame with world space rotation, relative to the centre of mass.
#[tactic(auto, unfolding(crate::specs::Prepare::prepare_frame))]
pub fn prepare_frame(body: BodyRecord, local_frame: Transform) -> Transform
    ensures { result ≡ D.prepare_frame body local_frame }
{
    let q = mul_quat(body.rotation, local_frame.q);
    let p = rotate_vector(body.rotation, sub(local_frame.p, body.local_center));
    Transform { p, q }
}

// The effective mass about an axis; zero where nothing turns about it.
#[tactic(auto, unfolding(crate::specs::Prepare::axial_mass))]
pub fn axial_mass(inv_inertia_sum: Matrix3, axis: Vec3) -> f32
    ensures { result ≡ D.axial_mass inv_inertia_sum axis }
{
    let k = dot(axis, mul_mv(inv_inertia_sum, axis));
    if k > 0.0 { 1.0 / k } else { 0.0 }
}
