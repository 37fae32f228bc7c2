// Body records: the state that the stages read and write, and what prepare reads of a body.
ghost use Rattle.std.specs.Prelude.{◌≡◌};
ghost use Rattle.records.specs.Body as D;

use math_functions::types::{Matrix3, Pos, QUAT_IDENTITY, Quat, VEC3_ZERO, Vec3};

// The flag of a body that the solver writes to.
pub const DYNAMIC_FLAG: u32 = 0x0000_1000;

// The part of a body that a joint's stages read and write.
#[derive(Clone, Copy)]
pub struct BodyState {
    pub linear_velocity: Vec3,
    pub angular_velocity: Vec3,

    // Using delta position reduces round-off error far from the origin
    pub delta_position: Vec3,

    // Delta rotation; identity for static bodies via a dummy state
    pub delta_rotation: Quat,

    // flag bits
    pub flags: u32,
}

// Identity body state; notice delta_rotation is identity.
pub const IDENTITY_BODY_STATE: BodyState = BodyState {
    linear_velocity: VEC3_ZERO,
    angular_velocity: VEC3_ZERO,
    delta_position: VEC3_ZERO,
    delta_rotation: QUAT_IDENTITY,
    flags: 0,
};

// What prepare reads of a body: of the Rust's Body the set and the index in it, of its BodySim the
// rest (`rotation` is transform.q).
#[derive(Clone, Copy)]
pub struct BodyRecord {
    pub set_index: i32,
    pub local_index: i32,
    pub inv_mass: f32,
    pub inv_inertia_world: Matrix3,
    pub rotation: Quat,
    pub center: Pos,
    pub local_center: Vec3,
}

// Is the body one that the solver writes to?
fn is_dynamic(state: BodyState) -> bool
    ensures { result ≡ D.is_dynamic state }
{
    state.flags & DYNAMIC_FLAG != 0
}

// The state as it is stored back: with new velocities if it is dynamic, else as it was.
#[tactic(auto, unfolding(crate::specs::Body::store_velocities))]
pub fn store_velocities(state: BodyState, v: Vec3, w: Vec3) -> BodyState
    ensures { result ≡ D.store_velocities state v w }
{
    if is_dynamic(state) {
        let mut out = state;
        out.linear_velocity = v;
        out.angular_velocity = w;
        return out;
    }
    state
}
