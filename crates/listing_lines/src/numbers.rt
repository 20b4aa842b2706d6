// Numbers, letters and entries as text. Each function writes from the place `at` on and returns the place after
// what it wrote. A struct of buffer and place would need a clause more in each function, that the buffer is the same one.
ghost use Rattle.std.specs.Prelude.{◌+◌, ◌≤◌, length};
ghost use Rattle.coxeter.proofs.Lists.{Stored};
ghost use Rattle.listing_text.specs.Text as text;

// A number in decimal: the digits before the last one first. With `itoa`, which needs a buffer for each number, a
// listing takes a tenth longer.
pub(crate) fn put_decimal(out: &mut [u8], at: usize, x: usize) -> usize
    requires { at + length (text.decimal x) ≤ length out.old }
    ensures { Stored out.old at (text.decimal x) out.new result }
{
    if x < 10 {
        out[at] = 48 + x as u8;
        return at + 1;
    }
    let last = put_decimal(out, at, x / 10);
    out[last] = 48 + (x % 10) as u8;
    last + 1
}

// The bytes of `part`. Three crates have their own copy: a public one would need a `requires`.
pub(crate) fn put_bytes(out: &mut [u8], at: usize, part: &[u8]) -> usize
    requires { at + length part.now ≤ length out.old }
    ensures { Stored out.old at part.now out.new result }
{
    out[at..at + part.len()].copy_from_slice(part);
    at + part.len()
}

// A number after one space.
pub(crate) fn put_spaced(out: &mut [u8], at: usize, x: usize) -> usize
    requires { at + length (text.spaced x) ≤ length out.old }
    ensures { Stored out.old at (text.spaced x) out.new result }
{
    out[at] = b' ';
    put_decimal(out, at + 1, x)
}

// Each letter after one space. Letters and entries have a loop each: one for both would take a closure, and a clause on
// what it writes, for a line less.
pub(crate) fn put_letters(out: &mut [u8], at: usize, word: &[u8]) -> usize
    requires { at + length (text.letters word.now) ≤ length out.old }
    ensures { Stored out.old at (text.letters word.now) out.new result }
{
    let mut r = at;
    for letter in word {
        r = put_spaced(out, r, *letter as usize);
    }
    r
}

// An entry after one space. -128 has the size 128 (Q10).
fn put_entry(out: &mut [u8], at: usize, e: i8) -> usize
    requires { at + length (text.entry e) ≤ length out.old }
    ensures { Stored out.old at (text.entry e) out.new result }
{
    let size = e.unsigned_abs() as usize;
    if e < 0 {
        out[at] = b' ';
        out[at + 1] = b'-';
        return put_decimal(out, at + 2, size);
    }
    put_spaced(out, at, size)
}

// Each entry after one space.
pub(crate) fn put_entries(out: &mut [u8], at: usize, window: &[i8]) -> usize
    requires { at + length (text.entries window.now) ≤ length out.old }
    ensures { Stored out.old at (text.entries window.now) out.new result }
{
    let mut r = at;
    for e in window {
        r = put_entry(out, r, *e);
    }
    r
}
