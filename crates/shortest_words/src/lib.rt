// Shortest words and what steps do to them: definitions in specs/, laws in proofs/. The code has the lengths of a split.
#![tactic(auto)]

// I22: the lengths of the two words of a split.
#[derive(Clone, Copy, Debug, PartialEq, Eq)]
pub struct SplitLengths {
    pub first: usize,
    pub second: usize,
}
