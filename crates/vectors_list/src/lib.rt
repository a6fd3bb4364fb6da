// The list of stored answers: its lines, read byte by byte, and the tally of what came of them.
#![tactic(auto)]

mod line;
mod tally;

pub use line::TextLine;
pub use tally::Tally;
