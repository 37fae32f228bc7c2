// The stages by value, a kind and a stage to a row: the rows of `bench_stages ROW REPEATS`, as
// bench_wall's `work_rows_of` tells.
#![tactic(auto)]

mod gates;
mod prepared;
mod rows;
mod stages;

use bench_wall::rows::{Rows, work_rows_of};
use rows::{prepares, solves, warm_starts};
use stages::{Revolute, Spherical, Weld};
use std::io;

struct StagesByValue;

impl Rows for StagesByValue {
    // Each repeat makes 4,096 calls.
    fn work(row: u8, repeats: u32) -> u32 {
        let calls = 4096 * u64::from(repeats);
        match row {
            18 => warm_starts::<Revolute>(calls),
            19 | 20 => solves::<Revolute>(row == 19, calls),
            21 => prepares::<Revolute>(calls),
            22 => warm_starts::<Spherical>(calls),
            23 | 24 => solves::<Spherical>(row == 23, calls),
            25 => prepares::<Spherical>(calls),
            26 => warm_starts::<Weld>(calls),
            27 | 28 => solves::<Weld>(row == 27, calls),
            _ => prepares::<Weld>(calls),
        }
    }
}

// The rows of the bench before these are the program bench's.
fn main(rt: HostRuntime) -> io::Result<()> {
    work_rows_of::<StagesByValue, _>(&rt, 18..30)
}
