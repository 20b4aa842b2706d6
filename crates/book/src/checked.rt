// Books that pass checks 1 to 3.
ghost use Rattle.std.specs.Prelude.{◌≡◌, ◌+◌, ◌*◌, ◌≤◌, ◌<◌, length, IfOk};
ghost use Rattle.coxeter.specs.Refusals.{refusal_of};
ghost use Rattle.book_format.specs.Books as books;
ghost use Rattle.book_format.specs.Books.{offset, misplaced, book_refusal};
ghost use Rattle.book_format.specs.answers.Preset.{as_preset};
ghost use Rattle.book_format.specs.Calls.{checked_preset};
ghost use Rattle.book_format.proofs.BookLaws.{book_size};

use crate::numbers::two_at;
use crate::records::{Record, count_place, head_size};
use book_format::{Edition, Preset};
use window::Refusal;

// C1, C13: the most bytes of a book.
pub(crate) const LARGEST: usize = 65535;

// A book that passes checks 1 to 3: how many presets it has, and where its trailer begins.
#[derive(Clone, Copy)]
pub(crate) struct CheckedBook<'a> {
    pub(crate) edition: Edition,
    pub(crate) bytes: &'a [u8],
    pub(crate) presets: usize,
    pub(crate) trailer: usize,
    pub(crate) ghost accepted: { book_refusal edition bytes.now ≡ 0 },
    pub(crate) ghost counted: { presets ≡ books.count bytes.now },
    pub(crate) ghost cut: { trailer ≡ books.trailer bytes.now },
    pub(crate) ghost fits: { trailer + 2 * presets ≤ length bytes.now },
    pub(crate) ghost short: { length bytes.now ≤ 65535 },
}

// C3, of a book with c presets: `due` is where the next record has to begin. Each record is read where its offset
// says, and a wrong offset is only noted, so that no load waits for the record before it. Nothing behind the trailer's
// beginning is read as a record.
fn is_misplaced(edition: Edition, book: &[u8], c: usize) -> bool
    requires book_len_bound { length book.now ≤ 65535 }
    requires c_in_bounds { 2 * c + 2 ≤ length book.now }
    requires c_value { c ≡ books.count book.now }
    ensures { result ≡ misplaced edition book.now }
{
    let trailer = book.len() - (2 * c + 2);
    let place = count_place(edition);
    let head = head_size(edition);
    let mut wrong = false;
    let mut due = 0;
    for i in 0..c {
        let offset = two_at(book, trailer + 2 * i);
        if trailer < offset + head {
            return true;
        }
        wrong = wrong | (offset != due);
        due = offset + head + two_at(book, offset + place);
    }
    wrong | (due != trailer)
}

impl<'a> CheckedBook<'a> {
    // C1, C2, C3, which a book of no bytes passes.
    pub(crate) fn open(edition: Edition, bytes: &'a [u8]) -> Result<CheckedBook<'a>, Refusal>
        ensures refusal { refusal_of result ≡ book_refusal edition bytes.now }
        ensures book { IfOk result (λ book. (book.edition ≡ edition) × (book.bytes ≡ bytes.entry)) }
    {
        if bytes.is_empty() {
            return Ok(CheckedBook {
                edition,
                bytes,
                presets: 0,
                trailer: 0,
            });
        }
        if bytes.len() < 2 || LARGEST < bytes.len() {
            return Err(Refusal::BookSize);
        }
        let presets = two_at(bytes, bytes.len() - 2);
        if bytes.len() < 2 * presets + 2 {
            return Err(Refusal::BookCount);
        }
        if is_misplaced(edition, bytes, presets) {
            return Err(Refusal::BookLayout);
        }
        Ok(CheckedBook {
            edition,
            bytes,
            presets,
            trailer: bytes.len() - (2 * presets + 2),
        })
    }

    // The record of a number.
    pub(crate) fn record(&self, number: usize) -> Record<'a>
        requires { number < self.now.presets }
        ensures { (result.edition ≡ self.now.edition) × (result.book ≡ self.now.bytes) × (result.start ≡ offset self.now.bytes.now number) }
    {
        let start = two_at(self.bytes, self.trailer + 2 * number);
        Record {
            edition: self.edition,
            book: self.bytes,
            start,
        }
    }

    // The size of the book with its count, which a book of no bytes lacks.
    pub(crate) fn size(&self) -> usize
        ensures { (result ≡ book_size self.now.bytes.now) × (result ≤ 65535) }
    {
        self.trailer + (2 * self.presets + 2)
    }

    // The preset with this number: check 4, and then those of its record.
    pub(crate) fn preset(&self, number: usize) -> Result<Preset, Refusal>
        ensures { as_preset result ≡ checked_preset self.now.edition self.now.bytes.now number }
    {
        if self.presets <= number {
            return Err(Refusal::NoSuchPreset);
        }
        self.record(number).check()
    }
}
