// An opened book (B14, G16): it keeps its bytes, its edition and what opening them returned, and serves preset
// calls by number. Each call hands edition and bytes to the call on edition, slice and number, and is right
// whatever `opened` holds. The calls are functions and no methods, since their names and signatures may not change.
ghost use Rattle.std.specs.Prelude.{◌≡◌, ◌+◌};
ghost use Rattle.book_format.specs.answers.Opened.{as_opened};
ghost use Rattle.book_format.specs.answers.Preset.{as_preset};
ghost use Rattle.book_format.specs.Calls.{checked_book, checked_preset, letters_of, letters_start};

use crate::reading::{check_book, check_preset, letters};
use book_format::{Edition, Preset};
use window::Refusal;

#[derive(Clone, Copy)]
pub struct Reader<'a> {
    pub bytes: &'a [u8],
    pub edition: Edition,
    pub opened: Result<usize, Refusal>,
}

// I31: opening makes checks 1 to 3.
pub fn open<'a>(edition: Edition, bytes: &'a [u8]) -> Reader<'a>
    ensures { (result.bytes ≡ bytes.entry) × (result.edition ≡ edition) × (as_opened result.opened ≡ checked_book edition bytes.now) }
{
    let opened = check_book(edition, bytes);
    Reader {
        bytes,
        edition,
        opened,
    }
}

// I31: what I25 returns on the book's bytes.
pub fn presets<'a>(r: Reader<'a>) -> Result<usize, Refusal>
    ensures { as_opened result ≡ checked_book r.entry.edition r.entry.bytes.now }
{
    check_book(r.edition, r.bytes)
}

// I31: what I26 returns on the book's bytes.
pub fn preset<'a>(r: Reader<'a>, number: usize) -> Result<Preset, Refusal>
    ensures { as_preset result ≡ checked_preset r.entry.edition r.entry.bytes.now number }
{
    check_preset(r.edition, r.bytes, number)
}

// I31: what I27 hands out, which outlives the reader: a part of the book itself.
pub fn preset_letters<'a>(r: Reader<'a>, number: usize) -> &'a [u8]
    ensures result_value { result.now ≡ letters_of r.entry.edition r.entry.bytes.now number }
    ensures ref_ptr_value { (result.ref_ptr.0 ≡ r.entry.bytes.ref_ptr.0)
        × (result.ref_ptr.1 ≡ r.entry.bytes.ref_ptr.1 + letters_start r.entry.edition r.entry.bytes.now number) }
{
    letters(r.edition, r.bytes, number)
}
