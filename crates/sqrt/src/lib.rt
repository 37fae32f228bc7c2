// The square root of an `f32`, rounded to the nearest `f32`, as IEEE 754 has it.
#![tactic(auto)]

ghost use Rattle.std.specs.Prelude.{◌≡◌, ◌+◌, ◌-◌, ◌*◌, ◌%◌, ◌^◌, ◌<◌, ◌≤◌, from_bits};
ghost use Rattle.std.specs.Float.{binary32};
ghost use Rattle.sqrt.specs.Sqrt as D;
ghost use Rattle.sqrt.specs.Steps.{Unpacks, NearestRoot};

use crate::cubics::{Cubic, INTERVAL, INTERVALS, SQUARE_UNIT, UNIT, cubic_at};

mod cubics;

// The digits of a normal `f32`. Its pattern does not show the leading one.
const DIGITS: u32 = f32::MANTISSA_DIGITS;

const HIDDEN_BIT: u64 = 1 << (DIGITS - 1);

// The patterns of three `f32`s. They are written out, since a constant's value may call no `to_bits`.
const LEAST_NORMAL: u32 = 1 << (DIGITS - 1);

const INFINITY: u32 = 0x7f80_0000;

const MINUS_ZERO: u32 = 0x8000_0000;

// A significand is scaled by one of these, so that the exponent that is left is even and the root
// has 24 digits.
const EVEN_SCALE: u64 = 1 << 23;

const ODD_SCALE: u64 = 1 << 24;

// A number's exponent is this and how many binary digits it has from the place of 2 ^ -149 up.
const EXPONENT_BIAS: u64 = 275 - 149 - 24;

// Above every root of a scaled significand.
const ROOT_BOUND: u32 = 1 << DIGITS;

// A positive finite number, by its pattern, and as `significand * 2 ^ (exponent - 275)`, where the
// significand has 24 digits. The root's exponent is half of this one.
#[derive(Clone, Copy)]
struct Unpacked {
    bits: u32,
    significand: u64,
    exponent: u64,
    ghost positive: { (0 < bits) × (bits < 0x7f80_0000) },
    ghost biased: { 102 ≤ exponent },
    ghost unpacks: { Unpacks bits significand (exponent - 102) },
}

impl Unpacked {
    fn normal(bits: u32) -> Unpacked
        requires { (2 ^ 23 ≤ bits) × (bits < 0x7f80_0000) }
        ensures { result.bits ≡ bits }
    {
        let b = u64::from(bits);
        Unpacked {
            bits,
            significand: HIDDEN_BIT + b % HIDDEN_BIT,
            exponent: b / HIDDEN_BIT + 23 + EXPONENT_BIAS,
        }
    }

    // The digits are shifted up until they are 24, as a normal number's are.
    fn subnormal(bits: u32) -> Unpacked
        requires { (0 < bits) × (bits < 2 ^ 23) }
        ensures { result.bits ≡ bits }
    {
        let digits = bits.ilog2() + 1;
        Unpacked {
            bits,
            significand: u64::from(bits << (DIGITS - digits)),
            exponent: u64::from(digits) + EXPONENT_BIAS,
        }
    }

    // A guess at the digits of a normal number's root, by a polynomial in d, which counts from the
    // start of the interval. Nothing is promised: a bad guess would cost time and nothing else. The
    // sums wrap, so that nothing is asked of the coefficients.
    fn estimate(self) -> u32 {
        let b = u64::from(self.bits);
        let Cubic(c3, c2, c1, c0) = cubic_at(b / INTERVAL % INTERVALS);
        let d = b % INTERVAL;
        let d2 = d * d / SQUARE_UNIT;
        let quadratic = c2.wrapping_sub((u64::from(c3) * d / INTERVAL) as u32);
        let linear = c0.wrapping_add(u64::from(c1) * d);
        (linear.wrapping_sub(u64::from(quadratic) * d2) / UNIT) as u32
    }

    fn scaled_significand(self) -> u64
        ensures { result ≡ self.significand * 2 ^ (23 + self.exponent % 2) }
    {
        if self.exponent % 2 == 0 {
            self.significand * EVEN_SCALE
        } else {
            self.significand * ODD_SCALE
        }
    }

    // The root, from any guess at its digits. It is r * 2 ^ (k - 149), where k is half of the
    // exponent, and r has the hidden bit.
    fn root(self, guess: u32) -> f32
        ensures { result ≡ D.sqrt (from_bits binary32 self.bits) }
    {
        let r = nearest_root(self.scaled_significand(), guess);
        f32::from_bits((self.exponent / 2 * HIDDEN_BIT + r) as u32)
    }
}

// A guess that is not above the nearest root: the one given, or what Heron's steps make of it.
// No `isqrt` serves for this loop and the next: it would take 32 turns for a guess that is one off.
fn lower_guess(n: u64, guess: u32) -> u32
    requires { 0 < n }
    ensures { result * result < n + result }
{
    let mut r = u64::from(guess);
    while n <= r * r - r {
        r = (r + n / r) / 2;
    }
    r as u32
}

// The whole number nearest to the root of n, from a guess that is not higher. No root is halfway
// between two.
fn raise_guess(n: u64, guess: u32) -> u64
    requires { (n < 2 ^ 48) × (guess * guess < n + guess) }
    ensures { NearestRoot n result }
{
    let mut r = u64::from(guess);
    while r * r + r < n {
        r += 1;
    }
    r
}

// The whole number nearest to the root of n, from any guess. Nearly every guess is right, and the
// result is then the guess itself, which waits for no loop. One test of the guess serves for both
// sides: where n is above r * r + r, the difference wraps and is large.
fn nearest_root(n: u64, guess: u32) -> u64
    requires { (0 < n) × (n < 2 ^ 48) }
    ensures { NearestRoot n result }
{
    let r = u64::from(guess);
    if (r * r + r).wrapping_sub(n) < 2 * r {
        return r;
    }
    raise_guess(n, lower_guess(n, guess))
}

// The root of x, rounded to the nearest `f32`. The root of -0.0 is -0.0, and that of any other
// number below zero is a NaN. Only what is no NaN has bits to read. The normal numbers come first,
// since a `match` of all cases tests for the special ones before. Subnormal numbers are rare, so
// any guess will do.
pub fn sqrt(x: f32) -> f32
    ensures { result ≡ D.sqrt x }
{
    if x.is_nan() {
        return x;
    }
    let b = x.to_bits();
    if LEAST_NORMAL <= b && b < INFINITY {
        let number = Unpacked::normal(b);
        return number.root(number.estimate());
    }
    if 0 < b && b < LEAST_NORMAL {
        return Unpacked::subnormal(b).root(ROOT_BOUND);
    }
    match b {
        0 | MINUS_ZERO | INFINITY => x,
        _ => f32::NAN,
    }
}
