// No code: this crate has request (xi), theorems over the definition that the split's contract cites. See specs/ and proofs/.
#![tactic(auto)]
