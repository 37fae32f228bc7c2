// A case as it is worked: the words that are still to come, and what comparing came to up to there.
use crate::agreement::Agreement;
use crate::joint_words::{Kind, OfKind};
use crate::words::{Answer, Floats, Input, Words};
use records::joint::JointSim;

#[derive(Clone, Copy)]
pub struct Case<'a> {
    words: Words<'a>,
    agreement: Agreement,
}

impl<'a> Case<'a> {
    pub fn of(bytes: &'a [u8]) -> Case<'a> {
        Case {
            words: Words::of(bytes),
            agreement: Agreement::from(true),
        }
    }

    // One more part of the answer.
    pub fn also(&mut self, part: Agreement) {
        self.agreement = self.agreement & part;
    }

    // One more condition of a case.
    pub fn expect(&mut self, holds: bool) {
        self.also(Agreement::from(holds));
    }

    // What is read of the inputs is compared with their words too: those of a switch that is neither 0
    // nor 1, and of a type that there is not, differ from what is read.
    fn check<T: Answer>(&mut self, mut words: Words<'a>, x: T) {
        self.expect(words.compare(&x).is_all());
    }

    // The next of the inputs.
    pub fn input<T: Input>(&mut self) -> T {
        let words = self.words;
        let x: T = self.words.read();
        self.check(words, x);
        x
    }

    // The same of a joint whose case is told.
    pub fn joint(&mut self, kind: Kind) -> JointSim {
        let words = self.words;
        let joint = kind.joint(&mut self.words);
        self.check(words, OfKind(kind, &joint));
        joint
    }

    // The next bytes of the inputs, four to a word.
    pub fn bytes(&mut self, count: usize) -> &'a [u8] {
        self.words.bytes(count)
    }

    // The words from here on, and the case without the next `count`.
    pub fn lend(&mut self, count: usize) -> Words<'a> {
        let words = self.words;
        self.words.skip(count);
        words
    }

    // The next of the answer.
    pub fn answer<T: Answer>(&mut self, x: T) {
        let part = self.words.compare(&x);
        self.also(part);
    }

    // The case has no more words.
    pub fn end(self) -> Agreement {
        self.agreement & Agreement::from(self.words.is_at_end())
    }
}

// Whether a function of floats answers what the case says.
pub fn answers<X: Floats, Y: Answer, F: Fn(X) -> Y>(mut case: Case<'_>, f: F) -> Agreement
    requires { F.IsAlwaysCallable f }
{
    let x: X = case.words.read();
    case.answer(f(x));
    case.end()
}
