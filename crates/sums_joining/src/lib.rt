// Rows of two removals joined from the back, so that the left one's tables can hold the join.
#![tactic(auto)]

mod join;

pub use join::{count_joined, join_in_place, saturating_add};
