// C-15's mark: whether a leaf solved its matrix or fell back to zeros. A row that is not worked and a
// mass that is not inverted have none: they answer an `Option<Mark>`.
#[derive(Clone, Copy, PartialEq, Eq, Debug)]
pub enum Mark {
    Solved,
    FellBack,
}

// What a leaf that may fall back answers: its value, which is zeros where it fell back, and its mark.
#[derive(Clone, Copy)]
pub struct Marked<T> {
    pub value: T,
    pub mark: Mark,
}
