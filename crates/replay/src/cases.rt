// Running the cases of a block of bytes.
ghost use Rattle.std.specs.Prelude.{◌+◌, ◌≤◌, length};

use crate::agreement::Agreement;
use crate::case::Case;
use crate::counts::Counts;
use crate::words::word;
use crate::{
    direct_calls, internal, lists, matrix, quat, scalar, soft, stages, stop_codes, transform,
    values, vector,
};

// How many bytes a case can have with its header: as many as the buffer holds.
pub const ROOM: usize = 65536;

// What the cases of a block came to.
#[derive(Clone, Copy)]
pub struct Block {
    // How many bytes they take, those still to come too: more than the block has, where the last is too long
    // for the buffer.
    pub used: usize,
    pub counts: Counts,
}

// Whether the library answers a case as the case says, if there is its function. The functions are
// numbered in groups of sixteen.
fn agrees(f: u32, bytes: &[u8]) -> Option<Agreement> {
    let case = Case::of(bytes);
    match f / 16 {
        1 => scalar::agrees(f, case),
        2 => vector::agrees(f, case),
        3 => internal::agrees(f, case),
        4 => quat::agrees(f, case),
        5 => matrix::agrees(f, case),
        6 => transform::agrees(f, case),
        7 => soft::agrees(f, case),
        8 => stages::agrees(f, case),
        9 => direct_calls::agrees(f, case),
        10 => lists::agrees(f, case),
        11 => stop_codes::agrees(f, case),
        12 => values::agrees(f, case),
        _ => None,
    }
}

// How many bytes a case has, with its header.
fn size_of(header: u32) -> usize
    ensures { 4 ≤ result }
{
    (header / 65536 * 4 + 4) as usize
}

// Whether the case of `size` bytes at `at` is answered as it says. One of a function that is not known
// is not.
fn agrees_at(block: &[u8], at: usize, header: u32, size: usize) -> Agreement
    requires { (4 ≤ size) × (at + size ≤ length block.now) }
{
    let from = at + 4;
    let end = at + size;
    agrees(header % 65536, &block[from..end]).unwrap_or(Agreement::from(false))
}

// One more case that could not be run, which counts as differing.
pub fn and_one_not_run(counts: Counts) -> Counts {
    counts + Counts::from(Agreement::from(false))
}

// The block ends before the case at `at` does. The case is left for when the rest of it has come,
// unless the buffer cannot hold it: then it counts as differing, and is passed over.
fn cut_at(at: usize, size: usize, counts: Counts) -> Block {
    if size > ROOM {
        return Block {
            used: at.wrapping_add(size),
            counts: and_one_not_run(counts),
        };
    }
    Block { used: at, counts }
}

// Runs the cases that the block has whole. (The index goes on by a case's own length, so no iterator of the
// library walks it.)
pub fn run_cases(block: &[u8]) -> Block {
    let mut at = 0usize;
    let mut counts = Counts::default();
    while at < block.len() {
        let header = word(block, at / 4);
        let size = size_of(header);
        if size > block.len() - at {
            return cut_at(at, size, counts);
        }
        counts = counts + Counts::from(agrees_at(block, at, header, size));
        at += size;
    }
    Block { used: at, counts }
}
