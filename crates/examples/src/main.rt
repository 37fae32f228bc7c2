// Runs document 01's sixteen examples through the compiled functions, and prints how many there are
// and how many of them differ. What is proved of them is the theorem in proofs/Examples.antt.
#![tactic(auto)]

mod joints;
mod leaves;
mod scenes;
mod words;

use joints::{is_13, is_14, is_15, is_16};
use leaves::{is_1, is_2, is_3, is_4, is_5, is_6, is_7, is_8, is_9, is_10, is_11, is_12};
use std::io;

fn main(rt: HostRuntime) -> io::Result<()> {
    let all = [
        is_1(),
        is_2(),
        is_3(),
        is_4(),
        is_5(),
        is_6(),
        is_7(),
        is_8(),
        is_9(),
        is_10(),
        is_11(),
        is_12(),
        is_13(),
        is_14(),
        is_15(),
        is_16(),
    ];
    let differing = all.iter().filter(|is_right| !**is_right).count();
    println!(rt; "{} {differing}", all.len())
}
