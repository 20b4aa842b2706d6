// What C links (section IC of the specification): each call of the crate `c_api` once more, under its own name and with
// its own clauses, as a function that the static library exports. A crate is a library for Rattle or one for C; so the
// calls themselves are in `c_api`, and nothing is done here.
#![tactic(auto)]

pub mod library;
pub mod presets;
pub mod rewriting;
pub mod shortest;
pub mod splits;
pub mod tables;
pub mod tracing;
pub mod windows;
pub mod words;
