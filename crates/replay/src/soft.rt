// The cases of the solver's soft constraint coefficients.
use crate::agreement::Agreement;
use crate::case::{Case, answers};
use solver::make_soft;

pub fn agrees(f: u32, case: Case<'_>) -> Option<Agreement> {
    Some(match f {
        0x70 => answers(case, |(hertz, zeta, h)| make_soft(hertz, zeta, h)),
        _ => return None,
    })
}
