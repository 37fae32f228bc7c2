// Whether a body kept its velocities, to the sign.
ghost use Rattle.std.specs.Prelude.{◌≡◌};
ghost use Rattle.scene.specs.Plain.{same_float, same_vector, same_velocities};

use math_functions::types::Vec3;
use records::body::BodyState;

// Whether the bits are the same, every NaN counting as one. A NaN has no pattern of its own, so the
// NaNs are tested for first.
fn same_float(x: f32, y: f32) -> bool
    ensures { result ≡ same_float x y }
{
    if x.is_nan() {
        return y.is_nan();
    }
    if y.is_nan() {
        return false;
    }
    x.to_bits() == y.to_bits()
}

fn same_vector(v: Vec3, w: Vec3) -> bool
    ensures { result ≡ same_vector v w }
{
    let x = same_float(v.x, w.x);
    let y = same_float(v.y, w.y);
    let z = same_float(v.z, w.z);
    x & y & z
}

#[tactic(auto, unfolding(scene::specs::Plain::same_velocities))]
pub fn same_velocities(a: BodyState, b: BodyState) -> bool
    ensures { result ≡ same_velocities a b }
{
    let linear = same_vector(a.linear_velocity, b.linear_velocity);
    let angular = same_vector(a.angular_velocity, b.angular_velocity);
    linear & angular
}
