// Strategies and choices of the owner rule.

// Which owner a merge keeps where both sides are owned and differ.
#[derive(Clone, Copy, Debug, PartialEq, Eq)]
pub enum MergingOwnersStrategy {
    RaiseIssue,
    UseOurs,
    UseTheirs,
}

// Whose owner stands, if anyone's.
#[derive(Clone, Copy, Debug, PartialEq, Eq)]
pub enum Choice {
    Ours,
    Theirs,
    Neither,
}
