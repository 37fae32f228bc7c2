// The states that a case has in a row: as many as it says.
use crate::case::Case;
use records::body::{BodyState, IDENTITY_BODY_STATE};

// How many words a state has.
const STATE_WORDS: usize = 14;

// The first N of the row of `count` states, and where it has fewer, what stands after it.
pub fn states_of<const N: usize>(case: &mut Case<'_>, count: u32) -> [BodyState; N] {
    let mut words = case.lend(count as usize * STATE_WORDS);
    let mut states = [IDENTITY_BODY_STATE; N];
    for state in &mut states {
        *state = words.read();
    }
    states
}

// The row of `count` states begins as these do.
pub fn answer_states(case: &mut Case<'_>, count: u32, states: &[BodyState]) {
    let mut words = case.lend(count as usize * STATE_WORDS);
    for state in states.iter().take(count as usize) {
        case.also(words.compare(state));
    }
}
