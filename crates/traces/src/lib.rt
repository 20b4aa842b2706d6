// The rewriting to its end, step by step, and how many steps it takes: definitions in specs/, laws in proofs/. The code
// has the size of a rewriting.
#![tactic(auto)]

// T22: how many steps a rewriting to its end has, and the final word's length.
#[derive(Clone, Copy, Debug, PartialEq, Eq)]
pub struct Rewriting {
    pub steps: usize,
    pub length: usize,
}
