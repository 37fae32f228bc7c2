// The cases of the stop code. The inputs are a joint after the number of its case, the answer is
// number, place and code.
use crate::agreement::Agreement;
use crate::case::Case;
use crate::words::{Answer, Words};
use records::joint::JointSim;
use records::refusal::{Cause, WrongKind};
use stop_code::stop_code;

impl Answer for Result<u32, WrongKind> {
    fn compare(&self, words: &mut Words<'_>) -> Agreement {
        match *self {
            Ok(code) => words.compare(&(0u32, 0u32, code)),
            Err(refused) => words.compare(&(Cause::from(refused).number(), 0u32, 0u32)),
        }
    }
}

fn stop_codes(mut case: Case<'_>) -> Agreement {
    let joint: JointSim = case.input();
    case.answer(stop_code(joint));
    case.end()
}

pub fn agrees(f: u32, case: Case<'_>) -> Option<Agreement> {
    Some(match f {
        0xb0 => stop_codes(case),
        _ => return None,
    })
}
