// The arguments of a timed program: numbers.
ghost use Rattle.std.specs.Prelude.{◌≡◌, ◌<◌};
ghost use Rattle.std.specs.Char.{is_ascii_digit};
ghost use Rattle.std.specs.List.{list_all};
ghost use Rattle.bench_wall.specs.Arguments as D;

use std::env::{Env, FillError};

fn are_digits(text: &[u8]) -> bool
    ensures { result ≡ list_all is_ascii_digit text.now }
{
    text.iter().all(|byte| byte.is_ascii_digit())
}

// The number that a text of digits names; none for any other text, a sign before digits among them, and
// for a number of more than nine digits.
fn number(text: &[u8]) -> Option<u32>
    ensures { result ≡ D.number text.now }
{
    if !are_digits(text) {
        return None;
    }
    let Ok(digits) = str::from_utf8(text) else {
        return None;
    };
    let Ok(number) = digits.parse::<u32>() else {
        return None;
    };
    if number < 1000000000 {
        Some(number)
    } else {
        None
    }
}

// Whether the program was started with an argument i.
pub fn has_argument(rt: &impl Env, i: usize) -> bool {
    !matches!(rt.arg(i, &mut [0u8; 1]), Err(FillError::NotPresent))
}

// The number that argument i names; 0 for one that is missing, that names none, or that is longer than
// 4,096 bytes.
pub fn argument(rt: &impl Env, i: usize) -> u32
    ensures { result < 1000000000 }
{
    let mut text = [0u8; 4096];
    match rt.arg(i, &mut text) {
        Ok(length) => number(&text[..length]).unwrap_or(0),
        Err(_) => 0,
    }
}
