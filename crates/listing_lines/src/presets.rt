// The lines of the presets of a book, each at the front of a buffer with room for it.
ghost use Rattle.std.specs.Prelude.{◌≡◌, ◌≤◌, length};
ghost use Rattle.coxeter.proofs.Lists.{Stored};
ghost use Rattle.book_format.specs.declared.Edition.{Edition};
ghost use Rattle.book_format.specs.answers.Preset.{as_preset};
ghost use Rattle.book_format.specs.Calls.{checked_preset};
ghost use Rattle.listing_text.specs.Text.{word_line, line_by};

use crate::lines::{put_line, put_refused};
use book::Preset;
use window::{Refusal, Word, write_form_of_word, write_window};

// The line of a word: its normal form and its window are computed here, where each has room, so that neither call is
// refused.
fn put_word(number: usize, word: Word, out: &mut [u8]) -> usize
    requires { length (word_line number word.group.kind word.group.rank word.letters.now) ≤ length out.old }
    ensures { Stored out.old 0 (word_line number word.entry.group.kind word.entry.group.rank word.entry.letters.now) out.new result }
{
    let mut form = io::buffer();
    let Ok(l) = write_form_of_word(word, &mut form) else {
        return 0;
    };
    let mut shown = [0i8; 64];
    let Ok(m) = write_window(word, &mut shown) else {
        return 0;
    };
    put_line(number, word.group, &form[..l], &shown[..m], out)
}

// P4, P7, G11: the line of a preset, by its number and what reading it returned, in whichever edition.
pub(crate) fn put_preset(
    book: &[u8],
    number: usize,
    answer: Result<Preset, Refusal>,
    out: &mut [u8],
) -> usize
    requires { (ed : Edition) × ((as_preset answer ≡ checked_preset ed book.now number) × (length (line_by book.now number (as_preset answer)) ≤ length out.old)) }
    ensures { Stored out.old 0 (line_by book.now number (as_preset answer)) out.new result }
{
    let Ok(preset) = answer else {
        return put_refused(number, answer.unwrap_err(), out);
    };
    let letters = &book[preset.start..preset.start + preset.length];
    let group = preset.group;
    put_word(number, Word { group, letters }, out)
}
