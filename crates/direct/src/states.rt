// The two states of a call, in a lent slice.
ghost use Rattle.std.specs.Prelude.{◌≡◌, get_or};
ghost use Rattle.records.specs.Body as B;
ghost use Rattle.direct.specs.Steps as S;

use crate::positions::Positions;
use constraint::velocity::Velocities;
use joint::store::StatePair;
use math_functions::types::Vec3;
use records::body::{BodyState, IDENTITY_BODY_STATE, store_velocities};

// What -1 reads. It is no parameter of `load_state`, which would then choose between two addresses for
// each field.
fn identity_state() -> BodyState
    ensures { result ≡ B.identity_body_state }
{
    IDENTITY_BODY_STATE
}

// The state at a position, or the identity state past the end.
fn load_state(states: &mut [BodyState], position: usize) -> BodyState
    ensures { (result ≡ get_or states.old position B.identity_body_state) × (states.new ≡ states.old) }
{
    if position < states.len() {
        return states[position];
    }
    identity_state()
}

// New velocities for the state at a position, if it is dynamic. Past the end nothing is stored. The state is
// read here, where it is plain that all but the velocities stays: only they are stored.
fn store_state(states: &mut [BodyState], position: usize, v: Vec3, w: Vec3)
    ensures { states.new ≡ S.store_at position v w states.old }
{
    if position < states.len() {
        let state = states[position];
        let stored = store_velocities(state, v, w);
        states[position] = stored;
        return;
    }
}

// Both states are read.
pub fn read_states(states: &mut [BodyState], positions: Positions) -> StatePair
    ensures { (result ≡ S.read_states positions states.old) × (states.new ≡ states.old) }
{
    let state_a = load_state(states, positions.a);
    let state_b = load_state(states, positions.b);
    StatePair { state_a, state_b }
}

// A is stored, then B.
pub fn write_states(states: &mut [BodyState], positions: Positions, velocities: Velocities)
    ensures { states.new ≡ S.write_states positions velocities states.old }
{
    store_state(states, positions.a, velocities.v_a, velocities.w_a);
    store_state(states, positions.b, velocities.v_b, velocities.w_b);
}
