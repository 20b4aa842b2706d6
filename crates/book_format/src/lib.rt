// The preset book: definitions in specs/, laws in proofs/. The code has the editions of a book, a preset as its record says
// it, and a run of presets.
#![tactic(auto)]

use coxeter::{Group, Refusal};

// B8: the edition of a book; there is no third.
#[derive(Clone, Copy, Debug, PartialEq, Eq)]
pub enum Edition {
    First,
    Second,
}

// I26: the kind and the rank of a preset, where its letters begin in the book and how many they are.
#[derive(Clone, Copy)]
pub struct Preset {
    pub group: Group,
    pub start: usize,
    pub length: usize,
}

// I35: 128 presets from the number `first` on, with what opening their book returned.
#[derive(Clone, Copy)]
pub struct Run {
    pub opened: Result<usize, Refusal>,
    pub first: usize,
    pub presets: [Result<Preset, Refusal>; 128],
}
