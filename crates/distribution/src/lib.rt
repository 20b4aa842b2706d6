// The windows of a kind and a rank by their lengths: definitions in specs/, laws in proofs/. The code has the lengths of a
// delay table.
#![tactic(auto)]

// I24: how many numbers, entries and letters of a delay table were written.
#[derive(Clone, Copy, Debug, PartialEq, Eq)]
pub struct TableLengths {
    pub counts: usize,
    pub entries: usize,
    pub letters: usize,
}
