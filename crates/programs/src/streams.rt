// Reading the input of a program to its end, and its output. Errors go to standard error.
ghost use Rattle.std.specs.Prelude.{◌≡◌, true, length};
ghost use Rattle.io.specs.Counts.{IsPrefixLen};

use std::io::{Eprint, Print, Read};

// Reads until the buffer is full, the input ends or a read fails, and returns how many bytes it put at the start of
// the buffer.
pub(crate) fn read_full<R: Read>(reader: &mut R, buffer: &mut [u8]) -> usize
    ensures { IsPrefixLen result buffer.new }
{
    let mut done = 0;
    // A `while`, since only a read says how many bytes it gave.
    while done < buffer.len() {
        match reader.read(&mut buffer[done..]) {
            Ok(0) | Err(_) => break,
            Ok(n) => done += n,
        }
    }
    done
}

// Whether the input ended after the n bytes that `read_full` put into a buffer, or filled the buffer. That call
// returns the same if a read fails, so the input is read once more: at its end that gives 0.
pub(crate) fn input_ended<R: Read, E: Eprint>(
    rt: &E,
    reader: &mut R,
    buffer: &[u8],
    n: usize,
) -> bool
    ensures { n ≡ length buffer.now → result ≡ true }
{
    if n == buffer.len() {
        return true;
    }
    let mut byte = [0u8; 1];
    if let Ok(0) = reader.read(&mut byte) {
        return true;
    }
    let _ = rt.eprint("the input was not read to its end\n");
    false
}

// Writes the bytes to standard output and returns whether all were taken.
pub(crate) fn print<R: Print + Eprint>(rt: &R, bytes: &[u8]) -> bool {
    if rt.write_all(bytes).is_ok() {
        return true;
    }
    let _ = rt.eprint("the output was not written\n");
    false
}
