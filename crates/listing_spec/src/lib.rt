// Flags as lines of text.
// No function: types, definitions, examples and laws, which the contracts of `listing` cite. See specs/ and proofs/.
#![tactic(auto)]

// The most bytes that are listed: `most_listed`, by the proof of `listing::list`.
pub const MOST_LISTED: usize = 7203;

// How many records have room: `record_places`, by the proof of `listing::list`.
pub const RECORD_PLACES: usize = 2400;

// The bytes that have room in the program's output: `longest_text`, by the proof of `show::main`.
pub const LONGEST_TEXT: usize = 69702;
