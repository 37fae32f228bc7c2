// The words of a case, read one after the other. A word has four bytes, the lowest first. Every index
// is allowed: a word that a case does not have reads as 0, so no caller has anything to prove, and
// a case of the wrong length is told by where its reading ends (case.rt).
ghost use Rattle.std.specs.Prelude.{◌≡◌, ◌+◌, ◌/◌, ◌%◌, ◌^◌, not, length, ◌==◌, from_bits};
ghost use Rattle.std.specs.Float.{binary32};
ghost use Rattle.replay.specs.Words as D;

use crate::agreement::Agreement;

// The word at index i.
#[tactic(auto, unfolding(crate::specs::Words::word_at))]
pub fn word(p: &[u8], i: usize) -> u32
    ensures { result ≡ D.word_at p.now i }
{
    if i < p.len() / 4 {
        let at = i * 4;
        return u32::from_le_bytes([p[at], p[at + 1], p[at + 2], p[at + 3]]);
    }
    0
}

// The float of a pattern. A NaN's pattern, without its sign, is above infinity's. No float
// is made of one here, since all NaNs are one.
pub fn float_of(bits: u32) -> f32
    ensures { result ≡ from_bits binary32 bits }
{
    if bits % 2147483648 > 2139095040 {
        return f32::NAN;
    }
    f32::from_bits(bits)
}

// The words of a case, and the index of the next. It wraps where no case reaches, so that nothing is
// asked of it.
#[derive(Clone, Copy)]
pub struct Words<'a> {
    bytes: &'a [u8],
    next: usize,
}

impl<'a> Words<'a> {
    pub fn of(bytes: &'a [u8]) -> Words<'a>
        ensures value { result.bytes.now ≡ bytes.now }
        ensures next { result.next ≡ 0 }
    {
        Words { bytes, next: 0 }
    }

    #[inline(always)]
    pub fn skip(&mut self, count: usize)
        ensures value { self.new.bytes.now ≡ self.old.bytes.now }
        ensures next { self.new.next ≡ (self.old.next + count) % 2 ^ 64 }
    {
        self.next = self.next.wrapping_add(count);
    }

    #[inline(always)]
    pub fn word(&mut self) -> u32
        ensures value { result ≡ D.word_at self.old.bytes.now self.old.next }
        ensures rest { self.new.bytes.now ≡ self.old.bytes.now }
        ensures next { self.new.next ≡ (self.old.next + 1) % 2 ^ 64 }
    {
        let x = word(self.bytes, self.next);
        self.skip(1);
        x
    }

    #[inline(always)]
    pub fn float(&mut self) -> f32
        ensures { result ≡ from_bits binary32 (D.word_at self.old.bytes.now self.old.next) }
    {
        float_of(self.word())
    }

    // A switch is on unless its word is 0. That its word is 0 or 1 is told by comparing.
    #[inline(always)]
    pub fn switch(&mut self) -> bool
        ensures { result ≡ not (D.word_at self.old.bytes.now self.old.next == 0) }
    {
        self.word() != 0
    }

    // The next `count` bytes, or all that there are, which begin a word.
    pub fn bytes(&mut self, count: usize) -> &'a [u8] {
        let start = self.next.saturating_mul(4).min(self.bytes.len());
        let rest = &self.bytes[start..];
        self.skip(count.div_ceil(4));
        &rest[..count.min(rest.len())]
    }

    // Whether the words are read to the last, and no further. The bytes are whole words.
    pub fn is_at_end(self) -> bool
        ensures { result ≡ (length self.entry.bytes.now / 4 == self.entry.next) }
    {
        self.bytes.len() / 4 == self.next
    }

    #[inline(always)]
    pub fn read<T: Input>(&mut self) -> T {
        T::read(self)
    }

    #[inline(always)]
    pub fn compare<T: Answer>(&mut self, x: &T) -> Agreement {
        x.compare(self)
    }
}

// A value that stands in an answer as a number of words.
// (A record lists its fields twice, here and in Input, by hand: the two check each other, as case.rt compares what
// it read, and the gate takes no impl that a derive of the repository's own writes.)
pub trait Answer: Copy {
    // Whether the next words are those of the value, bit for bit, where every NaN counts as the same. The
    // value is lent: by value a joint is copied for each part that is compared, and cases by value have 9 in a
    // hundred more instructions.
    fn compare(&self, words: &mut Words<'_>) -> Agreement;
}

// One that stands in the inputs too.
pub trait Input: Answer {
    // The value of the next words.
    fn read(words: &mut Words<'_>) -> Self;
}

// One of floats alone. What is read of any words has these words, so nothing is left to compare with them.
pub trait Floats: Input {}
