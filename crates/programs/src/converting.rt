// A book converted to the other edition, on standard output.
use crate::streams::{input_ended, print, read_full};
use book::Edition;
use listing_lines::refused_book;
use std::io::{Eprint, Input, Print};
use window::Refusal;

fn print_refused<R: Print + Eprint>(rt: &R, refusal: Refusal) {
    let mut line = io::buffer();
    // The buffer has room for the line, which is never refused.
    if let Ok(l) = refused_book(refusal.number(), &mut line) {
        print(rt, &line[..l]);
    }
}

// P10, P11: the book in the other edition, or if the conversion is refused only a line with its number.
fn print_converted<R: Print + Eprint>(rt: &R, edition: Edition, book: &[u8]) {
    let mut out = io::large_buffer();
    match book::convert(edition, book, &mut out) {
        Ok(l) => {
            print(rt, &out[..l]);
        }
        Err(refusal) => print_refused(rt, refusal),
    }
}

// P10 to P12: converts the book on standard input, which is of the edition named. If the conversion is refused, or
// the input cannot be read to its end, only a line that says so is printed, which no edition takes for a book: the
// count in its last two bytes is far above its length.
pub fn convert<R: Input + Print + Eprint>(rt: &R, edition: Edition) {
    let mut reader = rt.reader();
    let mut bytes = io::large_buffer();
    let n = read_full(&mut reader, &mut bytes);
    if input_ended(rt, &mut reader, &bytes, n) {
        print_converted(rt, edition, &bytes[..n]);
        return;
    }
    print(rt, b"book not read\n");
}
