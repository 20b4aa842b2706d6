// A book listed on standard output.
use crate::streams::{input_ended, print, read_full};
use book::Edition;
use listing_lines::next_piece;
use std::io::{Eprint, Input, Print, Read};

// The listing of a book, in pieces of at most 65,536 bytes, which is room for every line. It ends when no line is left
// and when a write fails.
fn print_book<R: Print + Eprint>(rt: &R, edition: Edition, book: &[u8]) {
    let mut out = io::large_buffer();
    let mut first = 0;
    // A loop, since only a piece says where the next one begins.
    loop {
        let piece = next_piece(edition, book, first, &mut out);
        if !print(rt, &out[..piece.end]) || piece.left == 0 {
            return;
        }
        first = piece.next;
    }
}

// P1, P2, P12: lists the book that a reader, as an open file, gives. If it cannot be read to its end nothing is listed:
// every listing has a first line.
pub fn list_from<R: Print + Eprint, S: Read + Drop>(rt: &R, reader: S, edition: Edition) {
    let mut reader = reader;
    let mut bytes = io::large_buffer();
    let n = read_full(&mut reader, &mut bytes);
    if input_ended(rt, &mut reader, &bytes, n) {
        print_book(rt, edition, &bytes[..n]);
    }
}

// P1, P2: lists the book on standard input.
pub fn list<R: Input + Print + Eprint>(rt: &R, edition: Edition) {
    list_from(rt, rt.reader(), edition);
}
