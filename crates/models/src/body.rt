// The bodies of the models, and their states.
ghost use Rattle.std.specs.Prelude.{◌≡◌};
ghost use Rattle.models.specs.Body as D;

use math_functions::types::{MAT3_ZERO, Matrix3, QUAT_IDENTITY, Quat, VEC3_ZERO, Vec3};
use records::AWAKE_SET;
use records::body::{BodyRecord, BodyState, DYNAMIC_FLAG};

// The inverse inertia of a slab that does not stand along the axes.
const SLAB: Matrix3 = Matrix3 {
    cx: Vec3 {
        x: 2.0,
        y: 0.125,
        z: 0.25,
    },
    cy: Vec3 {
        x: 0.125,
        y: 3.0,
        z: 0.375,
    },
    cz: Vec3 {
        x: 0.25,
        y: 0.375,
        z: 4.0,
    },
};

// What stands fast: it is in the set of the static bodies, and has no state.
#[tactic(auto, unfolding(crate::specs::Body::fixed_body))]
pub fn fixed_body() -> BodyRecord
    ensures { result ≡ D.fixed_body }
{
    BodyRecord {
        set_index: 0,
        local_index: 0,
        inv_mass: 0.0,
        inv_inertia_world: MAT3_ZERO,
        rotation: QUAT_IDENTITY,
        center: VEC3_ZERO,
        local_center: VEC3_ZERO,
    }
}

// A slab at an index of the awake set, with its centre at x.
#[tactic(auto, unfolding(crate::specs::Body::slab, crate::proofs::Literals::literals))]
pub fn slab(index: u8, x: f32) -> BodyRecord
    ensures { result ≡ D.slab index x }
{
    BodyRecord {
        set_index: AWAKE_SET,
        local_index: i32::from(index),
        inv_mass: 1.0,
        inv_inertia_world: SLAB,
        rotation: QUAT_IDENTITY,
        center: Vec3 { x, y: 0.0, z: 0.0 },
        local_center: VEC3_ZERO,
    }
}

// A dynamic body that moves and turns, the faster the larger `speed`.
#[tactic(auto, unfolding(crate::specs::Body::moving, crate::proofs::Literals::literals))]
pub fn moving(speed: f32) -> BodyState
    ensures { result ≡ D.moving speed }
{
    BodyState {
        linear_velocity: Vec3 {
            x: 0.25 + speed,
            y: 0.125 - speed,
            z: 0.5 * speed,
        },
        angular_velocity: Vec3 {
            x: 0.125 - speed,
            y: 0.5 * speed,
            z: 0.375 + speed,
        },
        delta_position: Vec3 {
            x: 0.001 * speed,
            y: -0.002,
            z: 0.003,
        },
        delta_rotation: Quat {
            v: Vec3 {
                x: 0.01 * speed,
                y: 0.02 * speed - 0.02,
                z: 0.03 * speed,
            },
            s: 0.9994,
        },
        flags: DYNAMIC_FLAG,
    }
}
