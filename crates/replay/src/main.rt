// Runs the test cases of standard input, then those of each file that the arguments name, and prints
// how many there are, and in how many of them the library's answer is not the recorded one, the stored
// angles and the marks left aside; then how many stored angles were compared, and how many of them differ;
// then the same of the marks.
#![tactic(auto)]

mod agreement;
mod case;
mod cases;
mod counts;
mod direct_calls;
mod internal;
mod joint_words;
mod leaf_words;
mod lists;
mod matrix;
mod quat;
mod record_words;
mod revolute_words;
mod scalar;
mod scene_words;
mod soft;
mod spherical_words;
mod stage_answers;
mod stages;
mod state_words;
mod stop_codes;
mod transform;
mod values;
mod vector;
mod weld_words;
mod words;

ghost use Rattle.std.specs.Prelude.{◌≤◌, length};

use cases::{ROOM, and_one_not_run, run_cases};
use counts::Counts;
use std::env::FillError;
use std::fs::File;
use std::io;
use std::io::Read;
use std::ops::ControlFlow;
use std::rt::{Env, Files};
use std::str::from_utf8;

// What the cases came to, and how far the input has been.
#[derive(Clone, Copy)]
struct State {
    counts: Counts,
    rest: Rest,
}

// What stands between the cases that were run and what is read next.
#[derive(Clone, Copy)]
enum Rest {
    // So many bytes at the start of the buffer, of a case that is not whole yet.
    Kept(usize),
    // So many bytes still to come of a case that is too long for the buffer and has been counted.
    Skip(usize),
}

impl Rest {
    fn kept(self) -> usize {
        match self {
            Rest::Kept(kept) => kept,
            Rest::Skip(_) => 0,
        }
    }

    fn skip(self) -> usize {
        match self {
            Rest::Kept(_) => 0,
            Rest::Skip(skip) => skip,
        }
    }
}

// Runs the whole cases of the buffer's bytes up to `end`, and keeps the rest.
fn run_block(buf: &mut [u8], s: State, end: usize) -> State
    requires { end ≤ length buf.old }
{
    let skip = s.rest.skip();
    if skip >= end {
        return State {
            counts: s.counts,
            rest: Rest::Skip(skip - end),
        };
    }
    let there = end - skip;
    let block = run_cases(&buf[skip..end]);
    let counts = s.counts + block.counts;
    if block.used > there {
        return State {
            counts,
            rest: Rest::Skip(block.used - there),
        };
    }
    // Where no byte was used up they stand at the start already: a long case that comes in small pieces is
    // not copied anew with each.
    let from = skip + block.used;
    if from > 0 {
        buf.copy_within(from..end, 0);
    }
    State {
        counts,
        rest: Rest::Kept(there - block.used),
    }
}

// Reads once, after the bytes that were kept, and runs what is there. Where the input has ended, or
// cannot be read, what was not run counts as a case that differs: one that is cut short, or what could
// not be read.
fn turn<R: Read>(buf: &mut [u8], input: &mut R, s: State) -> ControlFlow<Counts, State> {
    let kept = s.rest.kept();
    if kept >= buf.len() {
        return ControlFlow::Break(and_one_not_run(s.counts));
    }
    match input.read(&mut buf[kept..]) {
        Ok(0) if kept == 0 => ControlFlow::Break(s.counts),
        Ok(0) | Err(_) => ControlFlow::Break(and_one_not_run(s.counts)),
        Ok(got) => ControlFlow::Continue(run_block(buf, s, kept + got)),
    }
}

// Runs one more input, after what the earlier ones came to. A proved loop has to end, and nothing says
// that the input does. So the loop counts its turns, to a number that no run reaches.
fn replay<R: Read>(buf: &mut [u8], input: &mut R, before: Counts) -> Counts {
    let mut s = State {
        counts: before,
        rest: Rest::Kept(0),
    };
    for _ in 0..u64::MAX {
        match turn(buf, input, s) {
            ControlFlow::Continue(t) => s = t,
            ControlFlow::Break(counts) => return counts,
        }
    }
    s.counts
}

// Runs the file that argument i names. One that cannot be opened counts as one that cannot be read:
// so does a name that is not UTF-8, since the library opens no other.
fn replay_file<R: Files + Env>(rt: &R, buf: &mut [u8], i: usize, before: Counts) -> Counts {
    let mut path = [0u8; 4096];
    let Ok(length) = rt.arg(i, &mut path) else {
        return and_one_not_run(before);
    };
    let Ok(name) = from_utf8(&path[..length]) else {
        return and_one_not_run(before);
    };
    let Ok(mut file) = File::open(rt, name) else {
        return and_one_not_run(before);
    };
    replay(buf, &mut file, before)
}

// Whether there is an argument i. One that is not empty does not fit here.
fn has_arg(rt: &impl Env, i: usize) -> bool {
    !matches!(rt.arg(i, &mut []), Err(FillError::NotPresent))
}

fn replay_files<R: Files + Env>(rt: &R, buf: &mut [u8], before: Counts) -> Counts {
    let mut counts = before;
    for i in (1..usize::MAX).take_while(|i| has_arg(rt, *i)) {
        counts = replay_file(rt, buf, i, counts);
    }
    counts
}

fn print_counts(rt: &impl Print, c: Counts) -> io::Result<()> {
    rt.println(c.cases)?;
    rt.println(c.angles)?;
    rt.println(c.marks)
}

fn main(rt: HostRuntime) -> io::Result<()> {
    let mut buf = [0u8; ROOM];
    let read = replay(&mut buf, &mut rt.stdin(), Counts::default());
    print_counts(&rt, replay_files(&rt, &mut buf, read))
}
