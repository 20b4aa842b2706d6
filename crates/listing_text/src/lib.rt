// The listing of a book as text: definitions in specs/, laws in proofs/, and the answer of the call that writes a
// piece of it. No function.
#![tactic(auto)]

// I32: the line after a piece of a listing, how many bytes the piece has, and how many lines are still to come.
#[derive(Clone, Copy)]
pub struct Piece {
    pub next: usize,
    pub end: usize,
    pub left: usize,
}
