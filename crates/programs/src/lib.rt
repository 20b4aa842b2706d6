// What the programs on preset books do (P1, P2, P10 to P13 of the specification): they read a book from standard
// input and write its listing, or the book in the other edition, to standard output. Errors go to standard
// error: a program has no exit status. No public function has a `requires`.
#![tactic(auto)]

mod converting;
mod listing;
mod streams;

pub use book::Edition;
pub use converting::convert;
pub use listing::{list, list_from};
