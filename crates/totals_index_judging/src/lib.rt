// The table of structs judged as it stands, row by row, before anything is written.
#![tactic(auto)]

mod judging;

pub use judging::{judge_rows, rows_to_judge, start};
