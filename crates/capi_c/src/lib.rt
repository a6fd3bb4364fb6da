// The static library for C: each public call of c/petasunok.h under its name. Each hands on to the function of that name in `capi` and promises the
// same. A slice passes as a pointer and a length.
#![tactic(auto)]

mod adding;
mod heads;
mod owners;
mod reading;
mod removals;
mod removing;
mod repairing;
mod replacing;
mod structs;
mod writing;
