// Calls on what passed its checks: normal forms and windows, where the output has room for them. Check 14 is the only one.
ghost use Rattle.std.specs.Prelude.{◌≡◌, ltb};
ghost use Rattle.coxeter.specs.Windows.{window, product, inverse};
ghost use Rattle.coxeter.specs.Length.{window_length};
ghost use Rattle.coxeter.specs.NormalForm.{normal_form, word_normal_form};
ghost use Rattle.coxeter.specs.answers.Answer.{as_answer};
ghost use Rattle.coxeter.specs.Calls.{Yields, writes};

use crate::Windows;
use crate::action::show;
use crate::length::length_of;
use crate::normal::write_normal_form;
use crate::product::{inverse_into, product_into};
use crate::shown::{between, inverse_of, product_of, shown};
use coxeter::{Refusal, Window, Word};

// I36, C14: whether `room` is less than the length of a window's normal form. No normal form has more than n × n letters, so
// that the length is measured only if there is less room.
pub fn lacks_room(w: Window, room: usize) -> bool
    ensures { result ≡ ltb room (window_length w.entry.group.kind w.entry.entries.now) }
{
    let n = w.group.rank as usize;
    if n * n <= room {
        return false;
    }
    room < length_of(w)
}

// I36, I5, C14: the normal form of a window, to the front of `out`.
pub fn write_form(w: Window, out: &mut [u8]) -> Result<usize, Refusal>
    ensures { Yields (writes 0 (normal_form w.entry.group.kind w.entry.group.rank w.entry.entries.now) out.old)
        (as_answer result) out.new }
{
    if lacks_room(w, out.len()) {
        return Err(Refusal::OutputTooShort);
    }
    Ok(write_normal_form(w, out))
}

// I36, I6, C14: the normal form of what a word shows, to the front of `out`.
pub fn write_form_of_word(word: Word, out: &mut [u8]) -> Result<usize, Refusal>
    ensures { Yields (writes 0 (word_normal_form word.entry.group.kind word.entry.group.rank word.entry.letters.now) out.old)
        (as_answer result) out.new }
{
    let mut work = [0i8; 64];
    write_form(shown(word, &mut work), out)
}

// I36, I34, C14: the normal form of the product of two windows, to the front of `out`.
pub fn write_form_of_product(pair: Windows, out: &mut [u8]) -> Result<usize, Refusal>
    ensures { Yields (writes 0 (normal_form pair.entry.group.kind pair.entry.group.rank (product pair.entry.first.now pair.entry.second.now))
        out.old) (as_answer result) out.new }
{
    let mut work = [0i8; 64];
    write_form(product_of(pair, &mut work), out)
}

// I36, I34, C14: the normal form of a window's inverse, to the front of `out`.
pub fn write_form_of_inverse(w: Window, out: &mut [u8]) -> Result<usize, Refusal>
    ensures { Yields (writes 0 (normal_form w.entry.group.kind w.entry.group.rank (inverse w.entry.entries.now)) out.old)
        (as_answer result) out.new }
{
    let mut work = [0i8; 64];
    write_form(inverse_of(w, &mut work), out)
}

// I36, I34, C14: the normal form of the window that leads from the first to the second, to the front of `out`.
pub fn write_form_between(pair: Windows, out: &mut [u8]) -> Result<usize, Refusal>
    ensures { Yields (writes 0 (normal_form pair.entry.group.kind pair.entry.group.rank
        (product (inverse pair.entry.first.now) pair.entry.second.now)) out.old) (as_answer result) out.new }
{
    let mut work = [0i8; 64];
    write_form(between(pair, &mut work), out)
}

// I36, I4, C14: the window of a word, to the front of `out`.
pub fn write_window(word: Word, out: &mut [i8]) -> Result<usize, Refusal>
    ensures { Yields (writes 0 (window word.entry.group.kind word.entry.group.rank word.entry.letters.now) out.old)
        (as_answer result) out.new }
{
    let m = word.group.lanes();
    if out.len() < m {
        return Err(Refusal::OutputTooShort);
    }
    show(word, &mut out[..m]);
    Ok(m)
}

// I9, C14: the product of two windows, to the front of `out`.
pub(crate) fn write_product(pair: Windows, out: &mut [i8]) -> Result<usize, Refusal>
    ensures { Yields (writes 0 (product pair.entry.first.now pair.entry.second.now) out.old) (as_answer result) out.new }
{
    let m = pair.second.len();
    if out.len() < m {
        return Err(Refusal::OutputTooShort);
    }
    product_into(pair, out);
    Ok(m)
}

// I36, I10, C14: the inverse of a window, to the front of `out`. The three calls of this shape write by a function each;
// one that took it as a closure would be no plainer.
pub fn write_inverse(w: Window, out: &mut [i8]) -> Result<usize, Refusal>
    ensures { Yields (writes 0 (inverse w.entry.entries.now) out.old) (as_answer result) out.new }
{
    let m = w.entries.len();
    if out.len() < m {
        return Err(Refusal::OutputTooShort);
    }
    inverse_into(w, out);
    Ok(m)
}
