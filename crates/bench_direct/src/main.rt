// The direct calls, a kind and a stage to a row: the rows of `bench_direct ROW REPEATS`, as bench_wall's
// `work_rows_of` tells.
#![tactic(auto)]

mod gate;
mod rows;

use bench_wall::rows::{Rows, work_rows_of};
use bench_wall::wall::Kind;
use rows::{solves, warm_starts};
use std::io;

struct DirectCalls;

impl Rows for DirectCalls {
    // Each repeat makes 4,096 calls.
    fn work(row: u8, repeats: u32) -> u32 {
        let calls = 4096 * u64::from(repeats);
        match row {
            30 => warm_starts(Kind::Revolute, calls),
            31 | 32 => solves(Kind::Revolute, row == 31, calls),
            33 => warm_starts(Kind::Spherical, calls),
            34 | 35 => solves(Kind::Spherical, row == 34, calls),
            36 => warm_starts(Kind::Weld, calls),
            _ => solves(Kind::Weld, row == 37, calls),
        }
    }
}

// The rows of the bench before these are those of the programs bench and bench_stages.
fn main(rt: HostRuntime) -> io::Result<()> {
    work_rows_of::<DirectCalls, _>(&rt, 30..39)
}
