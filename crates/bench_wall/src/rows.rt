// What a timed program does with its arguments, and what it prints.
use crate::arguments::{argument, has_argument};
use std::env::Env;
use std::io;
use std::ops::Range;

// The rows of a program. (A trait, so that `work_rows_of` asks nothing of its caller.)
pub trait Rows {
    // The checksum of a row, worked so many times.
    fn work(row: u8, repeats: u32) -> u32;
}

pub fn write_checksum(rt: &impl Print, checksum: u32) -> io::Result<()> {
    println!(rt; "{checksum}")
}

// A row's number and its checksum.
pub fn write_row(rt: &impl Print, row: u8, checksum: u32) -> io::Result<()> {
    print!(rt; "{row} ")?;
    write_checksum(rt, checksum)
}

// `PROGRAM ROW REPEATS` prints the checksum of the row, and nothing where the row is none of the
// program's; with fewer arguments each row is worked once, and its number and checksum are printed.
pub fn work_rows_of<R: Rows, P: Env + Print>(rt: &P, rows: Range<u8>) -> io::Result<()> {
    if !has_argument(rt, 2) {
        for row in rows {
            write_row(rt, row, R::work(row, 1))?;
        }
        return Ok(());
    }
    match u8::try_from(argument(rt, 1)) {
        Ok(row) if rows.contains(&row) => write_checksum(rt, R::work(row, argument(rt, 2))),
        _ => Ok(()),
    }
}

// The same, where a closure gives a row's checksum: it may hold what it works on, as no impl of `Rows` can.
pub fn work_rows<W: Fn(u8, u32) -> u32>(
    rt: &(impl Env + Print),
    rows: Range<u8>,
    work: W,
) -> io::Result<()>
    requires { W.IsAlwaysCallable work }
{
    if !has_argument(rt, 2) {
        for row in rows {
            write_row(rt, row, work(row, 1))?;
        }
        return Ok(());
    }
    match u8::try_from(argument(rt, 1)) {
        Ok(row) if rows.contains(&row) => write_checksum(rt, work(row, argument(rt, 2))),
        _ => Ok(()),
    }
}

#[cfg(test)]
mod tests;
