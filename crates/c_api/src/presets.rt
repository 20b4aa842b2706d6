// Calls on a preset book of the first edition, and on one of the second (IC7 of the specification). What both do is
// one function over the edition; the C interface needs a name for each.
ghost use Rattle.std.specs.Prelude.{◌≡◌, IfOk};
ghost use Rattle.coxeter.specs.answers.Answer.{as_answer};
ghost use Rattle.book_format.specs.declared.Edition.TheVariants.{First, Second};
ghost use Rattle.book_format.specs.Calls.{checked_book, checked_preset, reading_presets, appending};
ghost use Rattle.book_format.specs.Conversion.{converting};
ghost use Rattle.c_api.specs.Calls.{numbered, number_of, opened_number, preset_numbers, listed};

use crate::numbers::{byte, number_of};
use book::Edition;
use coxeter::Refusal;

// I25: the number of presets of a book.
fn check_book(edition: Edition, book: &[u8]) -> i64
    ensures { result ≡ opened_number (checked_book edition book.now) }
{
    number_of(book::check_book(edition, book))
}

// I26: kind, rank, the offset of the letters in the book and their count go to the first four places of `fields`.
// Returns 4.
fn check_preset(
    edition: Edition,
    book: &[u8],
    number: usize,
    fields: &mut [u64],
) -> Result<usize, Refusal>
    ensures count { IfOk result (λ l. l ≡ 4) }
    ensures numbers { (number_of (as_answer result), fields.new)
        ≡ listed (preset_numbers (checked_preset edition book.now number)) fields.old }
{
    let preset = book::check_preset(edition, book, number)?;
    *fields.first_chunk_mut().ok_or(Refusal::OutputTooShort)? = [
        preset.group.kind.number() as u64,
        preset.group.rank as u64,
        preset.start as u64,
        preset.length as u64,
    ];
    Ok(4)
}

// I30: a run of presets from number `first` on, with one walk over the book: five numbers each, the refusal (5 to 8
// or 17, or 0), kind, rank, the offset of the letters in the book and their count, the last four 0 if it is
// refused; as many as exist and fit. Returns how many.
fn read_presets(edition: Edition, book: &[u8], first: usize, fields: &mut [u64]) -> i64
    ensures { (result, fields.new) ≡ numbered (reading_presets edition book.now first fields.old) }
{
    number_of(book::read_presets(edition, book, first, fields))
}

// I28: the whole new book, written to the front of `out`. Returns its length.
fn append(edition: Edition, book: &[u8], kind: u32, rank: u32, word: &[u8], out: &mut [u8]) -> i64
    ensures { (result, out.new) ≡ numbered (appending edition book.now kind rank word.now out.old) }
{
    number_of(book::append(edition, book, byte(kind), byte(rank), word, out))
}

// I29: the whole book in the other edition, written to the front of `out`. Returns its length.
fn convert(edition: Edition, book: &[u8], out: &mut [u8]) -> i64
    ensures { (result, out.new) ≡ numbered (converting edition book.now out.old) }
{
    number_of(book::convert(edition, book, out))
}

// I25, of the first edition.
pub fn winnathey_book_check(book: &[u8]) -> i64
    ensures { result ≡ opened_number (checked_book First book.now) }
{
    check_book(Edition::First, book)
}

// I26, of the first edition.
pub fn winnathey_preset(book: &[u8], number: usize, fields: &mut [u64]) -> i64
    ensures { (result, fields.new) ≡ listed (preset_numbers (checked_preset First book.now number)) fields.old }
{
    number_of(check_preset(Edition::First, book, number, fields))
}

// I30, of the first edition.
pub fn winnathey_presets(book: &[u8], first: usize, fields: &mut [u64]) -> i64
    ensures { (result, fields.new) ≡ numbered (reading_presets First book.now first fields.old) }
{
    read_presets(Edition::First, book, first, fields)
}

// I28, of the first edition.
pub fn winnathey_append(book: &[u8], kind: u32, rank: u32, word: &[u8], out: &mut [u8]) -> i64
    ensures { (result, out.new) ≡ numbered (appending First book.now kind rank word.now out.old) }
{
    append(Edition::First, book, kind, rank, word, out)
}

// I25, of the second edition.
pub fn winnathey_second_book_check(book: &[u8]) -> i64
    ensures { result ≡ opened_number (checked_book Second book.now) }
{
    check_book(Edition::Second, book)
}

// I26, of the second edition.
pub fn winnathey_second_preset(book: &[u8], number: usize, fields: &mut [u64]) -> i64
    ensures { (result, fields.new) ≡ listed (preset_numbers (checked_preset Second book.now number)) fields.old }
{
    number_of(check_preset(Edition::Second, book, number, fields))
}

// I30, of the second edition.
pub fn winnathey_second_presets(book: &[u8], first: usize, fields: &mut [u64]) -> i64
    ensures { (result, fields.new) ≡ numbered (reading_presets Second book.now first fields.old) }
{
    read_presets(Edition::Second, book, first, fields)
}

// I28, of the second edition.
pub fn winnathey_second_append(
    book: &[u8],
    kind: u32,
    rank: u32,
    word: &[u8],
    out: &mut [u8],
) -> i64
    ensures { (result, out.new) ≡ numbered (appending Second book.now kind rank word.now out.old) }
{
    append(Edition::Second, book, kind, rank, word, out)
}

// I29, of a book of the first edition.
pub fn winnathey_to_second(book: &[u8], out: &mut [u8]) -> i64
    ensures { (result, out.new) ≡ numbered (converting First book.now out.old) }
{
    convert(Edition::First, book, out)
}

// I29, of a book of the second edition.
pub fn winnathey_to_first(book: &[u8], out: &mut [u8]) -> i64
    ensures { (result, out.new) ≡ numbered (converting Second book.now out.old) }
{
    convert(Edition::Second, book, out)
}
