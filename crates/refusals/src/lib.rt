// Checks 5 to 11 (section C of the specification), each made by one function, for the calls of every layer above: what
// passes is handed on as a group, a word or a window; what does not is refused. No public function has a
// `requires`, and none writes anything.
#![tactic(auto)]

mod checks;
mod entries;
mod windows;

pub use checks::{accepted_letters, accepted_presets, accepted_word, accepted_words, group_of};
pub use coxeter::{Group, Kind, Refusal, Window, Word};
pub use entries::{is_negative, size};
pub use windows::{accepted_window, accepted_windows, odd_negatives};
