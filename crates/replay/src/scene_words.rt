// The joints and states of a scene: as many as a case gives, one after the other, the joints each
// after the number of its case. The places after them are not in use.
use crate::agreement::Agreement;
use crate::case::Case;
use crate::words::{Answer, Input, Words};
use records::body::BodyState;
use records::joint::{JointSim, JointUnion};

// The places, with the first `count` of them read.
pub fn places_of<T: Input, const N: usize>(
    case: &mut Case<'_>,
    count: usize,
    unused: [T; N],
) -> [T; N] {
    let mut places = unused;
    for place in places.iter_mut().take(count) {
        *place = case.input();
    }
    places
}

// The next of the answer are the first `count` of the places, and the others are unused.
pub fn answer_places<T: Place>(case: &mut Case<'_>, count: usize, places: &[T]) {
    for (k, place) in places.iter().enumerate() {
        if k < count {
            case.answer(*place);
        } else {
            case.also(place.is_unused());
        }
    }
}

// What a scene has in a place.
pub trait Place: Answer {
    fn is_unused(self) -> Agreement;
}

// These are the words of a joint that is not in use, up to the last of its base that is not 0: the three
// ids are -1, the type is that of a distance joint, and both frames are the identity. Its angles are NaNs.
impl Place for JointSim {
    fn is_unused(self) -> Agreement {
        let mut base = Words::of(
            b"\xff\xff\xff\xff\xff\xff\xff\xff\xff\xff\xff\xff\x01\0\0\0\
            \0\0\0\0\0\0\0\0\0\0\0\0\0\0\0\0\0\0\0\0\0\0\0\0\0\0\x80\x3f\
            \0\0\0\0\0\0\0\0\0\0\0\0\0\0\0\0\0\0\0\0\0\0\0\0\0\0\x80\x3f",
        );
        let mut nans = Words::of(b"\0\0\xc0\x7f\0\0\xc0\x7f");
        base.compare(&self.base)
            & nans.compare(&self.angles)
            & Agreement::from(matches!(self.union_, JointUnion::Other))
    }
}

// These are the words of the identity state, whose last word that is not 0 is that of the rotation.
impl Place for BodyState {
    fn is_unused(self) -> Agreement {
        let mut words = Words::of(
            b"\0\0\0\0\0\0\0\0\0\0\0\0\0\0\0\0\0\0\0\0\0\0\0\0\
            \0\0\0\0\0\0\0\0\0\0\0\0\0\0\0\0\0\0\0\0\0\0\0\0\0\0\x80\x3f",
        );
        words.compare(&self)
    }
}
