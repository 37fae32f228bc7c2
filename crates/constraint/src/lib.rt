// What the rows of the three joint kinds share, and, side by side, the pieces in which the Rust's text
// differs.
#![tactic(auto)]

pub mod angular;
pub mod answer;
pub mod kind;
pub mod point;
pub mod prepare;
pub mod rotation;
pub mod soft;
pub mod velocity;
