// What judging the table of structs goes on with.
use totals_spec::Named;

// What is known of a table after some of its rows: whether they are proper, the last of them, how many old counts no row holds yet, whether
// every total fits, how many rows do not go, and how many new counts make a row.
#[derive(Clone, Copy)]
pub struct Judging {
    pub rows: usize,
    pub upto: usize,
    pub old: Named,
    pub new: Named,
    pub good: bool,
    pub any: bool,
    pub owner: [u8; 32],
    pub epoch: u16,
    pub owed: usize,
    pub fits: bool,
    pub left: usize,
    pub made: usize,
}
