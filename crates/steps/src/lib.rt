// No code: this crate has the theorems over the definitions that the calls' contracts cite. See specs/ and proofs/.
#![tactic(auto)]
