// The states of a joint's two bodies once a stage's velocities are stored.
ghost use Rattle.std.specs.Prelude.{◌≡◌};
ghost use Rattle.joint.specs.Store as D;

use constraint::velocity::Velocities;
use records::body::{BodyState, store_velocities};

#[derive(Clone, Copy)]
pub struct StatePair {
    pub state_a: BodyState,
    pub state_b: BodyState,
}

// Both states were read first. A is stored, then B, each only if it is dynamic; so where both
// indices name one body, B's velocities remain.
#[tactic(auto, unfolding(crate::specs::Store::store_pair))]
pub fn store_pair(
    state_a: BodyState,
    state_b: BodyState,
    one_body: bool,
    v: Velocities,
) -> StatePair
    ensures { result ≡ D.store_pair state_a state_b one_body v }
{
    let a = store_velocities(state_a, v.v_a, v.w_a);
    let b = store_velocities(state_b, v.v_b, v.w_b);
    if one_body {
        return StatePair {
            state_a: b,
            state_b: b,
        };
    }
    StatePair {
        state_a: a,
        state_b: b,
    }
}
