// A book turned into the other edition: the checks of each record, then the records one after the other, their
// offsets and the count.
ghost use Rattle.std.specs.Prelude.{◌≡◌, ◌+◌, ◌*◌, ◌≤◌, ◌<◌, length, IfOk};
ghost use Rattle.std.proofs.lemmas.List.Edits.{sets};
ghost use Rattle.coxeter.specs.Refusals.{refusal_of};
ghost use Rattle.coxeter.specs.answers.Answer.{as_answer};
ghost use Rattle.book_format.specs.Books.{offset, head_size, kind_at, rank_at, lanes_at, letter_count_at, letters_at, record_of};
ghost use Rattle.book_format.specs.Records.{record_bytes, offset_bytes, records_from};
ghost use Rattle.book_format.specs.Conversion as conversion;
ghost use Rattle.book_format.specs.Conversion.{converted, records_conversion_refusal, conversion_refusal, converting};
ghost use Rattle.book_format.proofs.Converting.{size_of};

use crate::checked::{CheckedBook, LARGEST};
use crate::numbers::put_two;
use crate::records::head_size;
use crate::writing::{Contents, write_record};
use book_format::Edition;
use window::Refusal;

fn other(edition: Edition) -> Edition
    ensures { result ≡ conversion.other edition }
{
    match edition {
        Edition::First => Edition::Second,
        Edition::Second => Edition::First,
    }
}

// The size of the converted book: a record has one byte more in the second edition.
fn converted_size(book: &CheckedBook) -> usize
    ensures { result ≡ size_of book.now.edition (length book.now.bytes.now) book.now.presets }
{
    match book.edition {
        Edition::First => book.bytes.len() + book.presets,
        Edition::Second => book.bytes.len() - book.presets,
    }
}

// CO5: the first refusal of a record.
fn check_records(book: &CheckedBook) -> Result<(), Refusal>
    ensures { refusal_of result ≡ records_conversion_refusal book.now.edition book.now.bytes.now book.now.presets 0 }
{
    for i in 0..book.presets {
        book.record(i).check_conversion()?;
    }
    Ok(())
}

// C1 to C3 of the book, each record's checks in order, C13.
fn convertible(edition: Edition, book: &[u8]) -> Result<CheckedBook, Refusal>
    ensures refusal { refusal_of result ≡ conversion_refusal edition book.now }
    ensures book { IfOk result (λ checked. (checked.edition ≡ edition) × (checked.bytes ≡ book.entry)) }
{
    let book = CheckedBook::open(edition, book)?;
    check_records(&book)?;
    if LARGEST < converted_size(&book) {
        return Err(Refusal::NewBookTooLong);
    }
    Ok(book)
}

// A book that is not empty and passes every check of a conversion.
#[derive(Clone, Copy)]
struct Conversion<'a> {
    book: CheckedBook<'a>,
    ghost passed: { conversion_refusal book.edition book.bytes.now ≡ 0 },
    ghost some: { 0 < length book.bytes.now },
}

impl<'a> Conversion<'a> {
    // The size of a record in the other edition, by its number.
    fn other_size(&self, number: usize) -> usize
        requires { number < self.now.book.presets }
        ensures { let ed = self.now.book.edition in let b = self.now.book.bytes.now in
            result ≡ head_size (conversion.other ed) + letter_count_at ed b (offset b number) }
    {
        head_size(other(self.book.edition)) + self.book.record(number).letter_count()
    }

    // The record of a number, written from p on in the other edition.
    fn write_other(&self, number: usize, out: &mut [u8], p: usize)
        requires in_book { number < self.now.book.presets }
        requires number_in_bounds { let ed = self.now.book.edition in let b = self.now.book.bytes.now in
            p + head_size (conversion.other ed) + letter_count_at ed b (offset b number) ≤ length out.old }
        ensures { let ed = self.now.book.edition in let b = self.now.book.bytes.now in let o = offset b number in
            out.new ≡ sets out.old p (record_of (conversion.other ed) (kind_at b o) (rank_at b o) (lanes_at ed b o) (letters_at ed b o)) }
    {
        let record = self.book.record(number);
        let contents = Contents {
            kind: record.kind(),
            rank: record.rank(),
            lanes: record.lanes(),
            letters: record.letters(),
        };
        write_record(other(self.book.edition), contents, out, p);
    }

    // The records, written from byte 0 on. Returns where they end.
    fn write_others(&self, out: &mut [u8]) -> usize
        requires { length (converted self.now.book.edition self.now.book.bytes.now) ≤ length out.old }
        ensures { let ed = self.now.book.edition in let records = records_from ed self.now.book.bytes.now self.now.book.presets 0 in
            (out.new ≡ sets out.old 0 (record_bytes (conversion.other ed) records)) × (result ≡ length (record_bytes (conversion.other ed) records)) }
    {
        let mut p = 0;
        for i in 0..self.book.presets {
            self.write_other(i, out, p);
            p += self.other_size(i);
        }
        p
    }

    // The offsets of the converted records, written from p on.
    fn write_offsets(&self, out: &mut [u8], p: usize)
        requires { p + 2 * self.now.book.presets ≤ length out.old }
        ensures { let ed = self.now.book.edition in let records = records_from ed self.now.book.bytes.now self.now.book.presets 0 in
            out.new ≡ sets out.old p (offset_bytes (conversion.other ed) 0 records) }
    {
        let mut o = 0;
        for i in 0..self.book.presets {
            put_two(out, p + 2 * i, o);
            o += self.other_size(i);
        }
    }

    // The new book, written to the front of `out`.
    fn write_converted(&self, out: &mut [u8])
        requires { length (converted self.now.book.edition self.now.book.bytes.now) ≤ length out.old }
        ensures { out.new ≡ sets out.old 0 (converted self.now.book.edition self.now.book.bytes.now) }
    {
        let c = self.book.presets;
        let p = self.write_others(out);
        self.write_offsets(out, p);
        put_two(out, p + 2 * c, c);
    }
}

// I29: writes the book in the other edition to the front of `out` and returns its length; a book of no bytes stays
// one. Checks 1 to 3 of the book, then record by record 5, 6, 17, 7, 8 and 18, then 13 and 14.
pub fn convert(edition: Edition, book: &[u8], out: &mut [u8]) -> Result<usize, Refusal>
    ensures value { as_answer result ≡ (converting edition book.now out.old).answer }
    ensures out_after { out.new ≡ (converting edition book.now out.old).bytes }
{
    let book = convertible(edition, book)?;
    if book.bytes.is_empty() {
        return Ok(0);
    }
    let size = converted_size(&book);
    if out.len() < size {
        return Err(Refusal::OutputTooShort);
    }
    Conversion { book }.write_converted(out);
    Ok(size)
}
