// A joint of any kind: its prepare, the three kinds as one trait, the bodies that it names, and the states of its bodies once a
// stage's velocities are stored.
#![tactic(auto)]

pub mod index;
pub mod kind;
pub mod prepare;
pub mod store;
