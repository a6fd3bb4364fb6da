// The list of what a repair changes.
#![tactic(auto)]

mod change;
mod listing;

pub use listing::list_changes;
