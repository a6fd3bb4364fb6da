// What a repair answers.

// How many bytes were written, and how many lines listed.
#[derive(Clone, Copy, Debug, PartialEq, Eq)]
pub struct Sizes {
    pub bytes: usize,
    pub lines: usize,
}
