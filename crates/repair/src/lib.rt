// Repair of flag bytes from before the canonical rule.
#![tactic(auto)]

mod marking;
mod repairing;

pub use repairing::repair;
