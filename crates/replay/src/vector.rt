// The cases of the functions of Vec3.
use crate::agreement::Agreement;
use crate::case::{Case, answers};
use math_functions::vector::{
    add, cross, dot, length, mul_add, mul_sub, mul_sv, neg, normalize, sub,
};

pub fn agrees(f: u32, case: Case<'_>) -> Option<Agreement> {
    Some(match f {
        0x20 => answers(case, |(a, b)| add(a, b)),
        0x21 => answers(case, |(a, b)| sub(a, b)),
        0x22 => answers(case, neg),
        0x23 => answers(case, |(a, b)| dot(a, b)),
        0x24 => answers(case, length),
        0x25 => answers(case, normalize),
        0x26 => answers(case, |(a, s, b)| mul_add(a, s, b)),
        0x27 => answers(case, |(a, s, b)| mul_sub(a, s, b)),
        0x28 => answers(case, |(s, v)| mul_sv(s, v)),
        0x29 => answers(case, |(a, b)| cross(a, b)),
        _ => return None,
    })
}
