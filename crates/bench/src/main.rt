// The call lists, a kind of joints and a kind of list to a row, then the two leaves: the rows of
// `bench ROW REPEATS`, as bench_wall's `work_rows_of` tells.
#![tactic(auto)]

mod leaves;
mod lists;

use bench_wall::rows::{Rows, work_rows_of};
use bench_wall::wall::Kind;
use leaves::{arctangents, roots};
use lists::run_lists;
use std::io;

// A row for each kind and each stage, and at the fourth of either the three in turn.
fn kind_of(number: u8) -> Option<Kind> {
    match number {
        0 => Some(Kind::Revolute),
        1 => Some(Kind::Spherical),
        2 => Some(Kind::Weld),
        _ => None,
    }
}

struct CallLists;

impl Rows for CallLists {
    // Each repeat makes 4,096 calls.
    fn work(row: u8, repeats: u32) -> u32 {
        let calls = 4096 * u64::from(repeats);
        match row {
            16 => roots(calls),
            17 => arctangents(calls),
            _ => run_lists(
                kind_of(row / 4),
                Some(row % 4).filter(|stage| *stage < 3),
                repeats,
            ),
        }
    }
}

fn main(rt: HostRuntime) -> io::Result<()> {
    work_rows_of::<CallLists, _>(&rt, 0..18)
}
