// What the timed programs share: a wall of gates, the checksum of what a row leaves of it, the reading
// of the arguments, and what is printed.
#![tactic(auto)]

pub mod arguments;
pub mod rows;
pub mod sum;
pub mod wall;
