// Totals per owner and epoch in a lent slice of structs: the table is taken apart into a work area, changed there, and put together again.
#![tactic(auto)]

mod replacing;

pub use replacing::replace_structs;
