// A checksum of what a stage can change, the impulses of the joints and the velocities of the bodies, by
// which two programs that work the same rows are compared. Every NaN counts as one.
ghost use Rattle.std.specs.Prelude.{◌≡◌};
ghost use Rattle.bench_wall.specs.Sum as D;

use math_functions::types::Vec3;
use records::body::BodyState;
use records::joint::{JointSim, JointUnion, RevoluteJoint, SphericalJoint, WeldJoint};

// A checksum is below this prime.
const PRIME: u64 = 4294967291;

#[tactic(auto, unfolding(crate::specs::Sum::add_word))]
pub fn add_word(sum: u32, word: u32) -> u32
    ensures { result ≡ D.add_word sum word }
{
    let wide = u64::from(sum) * 16777619 + u64::from(word);
    (wide % PRIME) as u32
}

// The checksum with one more float.
#[tactic(auto, unfolding(crate::specs::Sum::add_float))]
pub fn add_float(sum: u32, x: f32) -> u32
    ensures { result ≡ D.add_float sum x }
{
    if x.is_nan() {
        return add_word(sum, 0x7fc0_0000);
    }
    add_word(sum, x.to_bits())
}

#[tactic(auto, unfolding(crate::specs::Sum::add_vec3))]
pub fn add_vec3(sum: u32, v: Vec3) -> u32
    ensures { result ≡ D.add_vec3 sum v }
{
    add_float(add_float(add_float(sum, v.x), v.y), v.z)
}

// A kind's sum goes through the fields of its own record.
#[tactic(auto, unfolding(crate::specs::Sum::add_revolute))]
fn add_revolute(sum: u32, j: RevoluteJoint) -> u32
    ensures { result ≡ D.add_revolute sum j }
{
    let s = add_vec3(sum, j.linear_impulse);
    let s = add_float(add_float(s, j.perp_impulse.x), j.perp_impulse.y);
    let s = add_float(add_float(s, j.spring_impulse), j.motor_impulse);
    add_float(add_float(s, j.lower_impulse), j.upper_impulse)
}

#[tactic(auto, unfolding(crate::specs::Sum::add_spherical))]
fn add_spherical(sum: u32, j: SphericalJoint) -> u32
    ensures { result ≡ D.add_spherical sum j }
{
    let s = add_vec3(sum, j.linear_impulse);
    let s = add_vec3(add_vec3(s, j.spring_impulse), j.motor_impulse);
    let s = add_float(add_float(s, j.lower_twist_impulse), j.upper_twist_impulse);
    add_float(s, j.swing_impulse)
}

#[tactic(auto, unfolding(crate::specs::Sum::add_weld))]
fn add_weld(sum: u32, j: WeldJoint) -> u32
    ensures { result ≡ D.add_weld sum j }
{
    add_vec3(add_vec3(sum, j.linear_impulse), j.angular_impulse)
}

// The impulses of the joint's kind; the empty case has none.
fn add_impulses(sum: u32, union_: JointUnion) -> u32
    ensures { result ≡ D.add_impulses sum union_ }
{
    match union_ {
        JointUnion::Revolute(j) => add_revolute(sum, j),
        JointUnion::Spherical(j) => add_spherical(sum, j),
        JointUnion::Weld(j) => add_weld(sum, j),
        JointUnion::Other => sum,
    }
}

#[tactic(auto, unfolding(crate::specs::Sum::add_velocities))]
fn add_velocities(sum: u32, state: BodyState) -> u32
    ensures { result ≡ D.add_velocities sum state }
{
    add_vec3(add_vec3(sum, state.linear_velocity), state.angular_velocity)
}

// The checksum with one more gate: what its joint and its body are left with.
#[tactic(auto, unfolding(crate::specs::Sum::add_gate))]
pub fn add_gate(sum: u32, joint: JointSim, state: BodyState) -> u32
    ensures { result ≡ D.add_gate sum joint state }
{
    add_velocities(add_impulses(sum, joint.union_), state)
}
