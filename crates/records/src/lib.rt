// The records that joints and bodies are kept in, with the Rust's names and order of fields. Where
// one is cut in two or stands for several, its comment says so.
#![tactic(auto)]

pub mod body;
pub mod joint;
pub mod refusal;

// Used to indicate an unset or invalid index value.
pub const NULL_INDEX: i32 = -1;

// The solver set of the bodies that are awake.
pub const AWAKE_SET: i32 = 2;
