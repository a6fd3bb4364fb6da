// The list of changes as lines of text.
// No function: types, definitions, examples and laws, which the contracts of `change_lines` cite. See specs/ and proofs/.
#![tactic(auto)]

// The line behind those that were put, and how many bytes their text has.
#[derive(Clone, Copy)]
pub struct Chunk {
    pub next: usize,
    pub size: usize,
}
