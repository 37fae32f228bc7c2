// The cases of the functions of Vec2.
use crate::agreement::Agreement;
use crate::case::{Case, answers};
use math_functions::internal::{add2, mul_sv2, sub2};

pub fn agrees(f: u32, case: Case<'_>) -> Option<Agreement> {
    Some(match f {
        0x30 => answers(case, |(a, b)| add2(a, b)),
        0x31 => answers(case, |(a, b)| sub2(a, b)),
        0x32 => answers(case, |(s, v)| mul_sv2(s, v)),
        _ => return None,
    })
}
