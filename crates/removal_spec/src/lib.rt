// The removing merge of flags.
// No function: definitions, examples and laws, which the contracts of `removal` cite. See specs/ and proofs/.
#![tactic(auto)]
