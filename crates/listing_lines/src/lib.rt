// The listing of a book (P3 to P9 and I32 of the specification), piece by piece into a lent buffer, and the line of a
// refused book. No public function has a `requires`.
#![tactic(auto)]

mod lines;
mod numbers;
mod pieces;
mod presets;

pub use book::Edition;
pub use listing_text::Piece;
pub use pieces::{next_piece, refused_book};
