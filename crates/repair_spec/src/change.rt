// What repairing changes.

// The changes, in the order of their numbers.
#[derive(Clone, Copy, Debug, PartialEq, Eq)]
pub enum Change {
    ReEncoded,
    TooLarge,
    NotAboveBase,
    Replaced,
    TailCut,
    Moved,
    KindChanged,
}
