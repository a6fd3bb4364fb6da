// The contracts of all public calls, collected from the crates that prove them, and what holds of each. No function.
#![tactic(auto)]
