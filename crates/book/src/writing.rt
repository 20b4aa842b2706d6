// Appending a preset: the whole new book to an output.
ghost use Rattle.std.specs.Prelude.{◌≡◌, ◌++◌, ◌+◌, ◌*◌, ◌≤◌, length, take, drop, IfOk};
ghost use Rattle.std.proofs.lemmas.List.Edits.{sets};
ghost use Rattle.coxeter.specs.Kinds.{kind_number};
ghost use Rattle.coxeter.specs.Refusals.{refusal_of};
ghost use Rattle.coxeter.specs.answers.Answer.{as_answer};
ghost use Rattle.book_format.specs.Books.{two, head_size, record_of, added_size, appended, append_refusal};
ghost use Rattle.book_format.specs.Calls.{appending};
ghost use Rattle.book_format.proofs.BookLaws.{book_size};

use crate::checked::{CheckedBook, LARGEST};
use crate::numbers::{copy_to, put_two};
use crate::records::{book_group, count_place, head_size, is_retired, put_lanes};
use book_format::Edition;
use window::{Refusal, Word, accepted_word};

// What a record says, in its bytes: the kind and the rank of a record that is converted are those of the book.
#[derive(Clone, Copy)]
pub(crate) struct Contents<'a> {
    pub(crate) kind: u8,
    pub(crate) rank: u8,
    pub(crate) lanes: u8,
    pub(crate) letters: &'a [u8],
}

// The bytes of a record, written from p on.
pub(crate) fn write_record(edition: Edition, contents: Contents, out: &mut [u8], p: usize)
    requires { p + head_size edition + length contents.letters.now ≤ length out.old }
    ensures { out.new ≡ sets out.old p
        (record_of edition contents.entry.kind contents.entry.rank contents.entry.lanes contents.entry.letters.now) }
{
    let place = count_place(edition);
    let head = head_size(edition);
    out[p] = contents.kind;
    out[p + 1] = contents.rank;
    put_lanes(edition, contents.lanes, out, p + 2);
    put_two(out, p + place, contents.letters.len());
    copy_to(contents.letters, out, p + head);
}

// The records of a book and the new record.
fn write_records(book: &CheckedBook, contents: Contents, out: &mut [u8])
    requires { book.now.trailer + head_size book.now.edition + length contents.letters.now ≤ length out.old }
    ensures { out.new ≡ sets out.old 0 (take book.now.trailer book.now.bytes.now
        ++ record_of book.now.edition contents.entry.kind contents.entry.rank contents.entry.lanes contents.entry.letters.now) }
{
    copy_to(&book.bytes[..book.trailer], out, 0);
    write_record(book.edition, contents, out, book.trailer);
}

// The offsets of a book, that of the new record, which stands where the trailer began, and the count, written from p on.
fn write_trailer(book: &CheckedBook, out: &mut [u8], p: usize)
    requires { p + 2 * book.now.presets + 4 ≤ length out.old }
    ensures { out.new ≡ sets out.old p (take (2 * book.now.presets) (drop book.now.trailer book.now.bytes.now)
        ++ (two book.now.trailer ++ two (book.now.presets + 1))) }
{
    let end = book.trailer + 2 * book.presets;
    let q = p + 2 * book.presets;
    copy_to(&book.bytes[book.trailer..end], out, p);
    put_two(out, q, book.trailer);
    put_two(out, q + 2, book.presets + 1);
}

// The book with the word appended, written to the front of `out`.
fn write_appended(book: &CheckedBook, word: Word, out: &mut [u8])
    requires { book_size book.now.bytes.now + added_size book.now.edition word.letters.now ≤ length out.old }
    ensures { out.new ≡ sets out.old 0
        (appended book.now.edition book.now.bytes.now (kind_number word.entry.group.kind) word.entry.group.rank word.entry.letters.now) }
{
    let contents = Contents {
        kind: word.group.kind.number(),
        rank: word.group.rank,
        lanes: word.group.lanes() as u8,
        letters: word.letters,
    };
    write_records(book, contents, out);
    write_trailer(
        book,
        out,
        book.trailer + head_size(book.edition) + word.letters.len(),
    );
}

// B18: the size of a book with the word appended.
fn appended_size(book: &CheckedBook, word: Word) -> usize
    ensures { result ≡ book_size book.now.bytes.now + added_size book.now.edition word.entry.letters.now }
{
    book.size() + (head_size(book.edition) + word.letters.len() + 2)
}

// The book and the word to be appended to it, after C1 to C3 of the book, C5 to C8 and C21 of the preset, and C13.
fn appendable<'a, 'b>(
    edition: Edition,
    book: &'a [u8],
    kind: u8,
    rank: u8,
    word: &'b [u8],
) -> Result<(CheckedBook<'a>, Word<'b>), Refusal>
    ensures refusal { refusal_of result ≡ append_refusal edition book.now kind rank word.now }
    ensures parts { IfOk result (λ p. ((p.0.edition ≡ edition) × (p.0.bytes ≡ book.entry))
        × ((kind_number p.1.group.kind ≡ kind) × (p.1.group.rank ≡ rank) × (p.1.letters ≡ word.entry))) }
{
    let book = CheckedBook::open(edition, book)?;
    book_group(edition, kind, rank)?;
    let word = accepted_word(kind, rank, word)?;
    if is_retired(word.group) {
        return Err(Refusal::RetiredGroup);
    }
    if LARGEST < appended_size(&book, word) {
        return Err(Refusal::NewBookTooLong);
    }
    Ok((book, word))
}

// I28: writes the book with the preset appended to the front of `out` and returns its length. Checks 1 to 3 of the
// book, 5 to 8 and 21 of the preset, 13, 14.
pub fn append(
    edition: Edition,
    book: &[u8],
    kind: u8,
    rank: u8,
    word: &[u8],
    out: &mut [u8],
) -> Result<usize, Refusal>
    ensures value { as_answer result ≡ (appending edition book.now kind rank word.now out.old).answer }
    ensures out_after { out.new ≡ (appending edition book.now kind rank word.now out.old).bytes }
{
    let (book, word) = appendable(edition, book, kind, rank, word)?;
    let size = appended_size(&book, word);
    if out.len() < size {
        return Err(Refusal::OutputTooShort);
    }
    write_appended(&book, word, out);
    Ok(size)
}
