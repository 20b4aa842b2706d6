// Opening a book, and reading a preset and its letters by number.
ghost use Rattle.std.specs.Prelude.{◌≡◌, ◌+◌};
ghost use Rattle.book_format.specs.answers.Opened.{as_opened};
ghost use Rattle.book_format.specs.answers.Preset.{as_preset};
ghost use Rattle.book_format.specs.Calls.{checked_book, checked_preset, letters_of, letters_start};

use crate::checked::CheckedBook;
use book_format::{Edition, Preset};
use window::Refusal;

// I25: the number of presets. Checks 1, 2, 3.
pub fn check_book(edition: Edition, book: &[u8]) -> Result<usize, Refusal>
    ensures { as_opened result ≡ checked_book edition book.now }
{
    let book = CheckedBook::open(edition, book)?;
    Ok(book.presets)
}

// I26: the kind and the rank of a preset, and where its letters are. Checks 1 to 8, in the second edition also 17
// after 6.
pub fn check_preset(edition: Edition, book: &[u8], number: usize) -> Result<Preset, Refusal>
    ensures { as_preset result ≡ checked_preset edition book.now number }
{
    CheckedBook::open(edition, book)?.preset(number)
}

// I27, G10: the letters of a preset, as the part of the book that holds them. For a refused preset an empty part of
// the book.
pub fn letters(edition: Edition, book: &[u8], number: usize) -> &[u8]
    ensures result_value { result.now ≡ letters_of edition book.now number }
    ensures ref_ptr_value { (result.ref_ptr.0 ≡ book.entry.ref_ptr.0) × (result.ref_ptr.1 ≡ book.entry.ref_ptr.1 + letters_start edition book.now number) }
{
    match check_preset(edition, book, number) {
        Ok(preset) => &book[preset.start..preset.start + preset.length],
        Err(_) => &book[0..0],
    }
}
