// Cases of opened books (B14): each function asks a book through the reader, and returns whether its case holds or how
// many of its cases do.
ghost use Rattle.std.specs.Prelude.{◌≡◌, ◌+◌, ◌≤◌};
ghost use Rattle.book_format.specs.answers.Opened.{as_opened};
ghost use Rattle.book_format.specs.answers.Preset.{as_preset};
ghost use Rattle.book_format.specs.Calls.{checked_book, checked_preset, letters_of, letters_start};

use crate::cases::held;
use book::reader::{open, preset, preset_letters, presets};
use book::{Edition, Preset};
use window::{Kind, Refusal};

#[derive(Clone, Copy)]
struct Answers {
    count: Result<usize, Refusal>,
    first: Result<Preset, Refusal>,
    second: Result<Preset, Refusal>,
}

// A book that is opened once: how many presets it has, and two of them.
fn asked(edition: Edition, book: &[u8], i: usize, j: usize) -> Answers
    ensures { (as_opened result.count ≡ checked_book edition book.now)
        × (as_preset result.first ≡ checked_preset edition book.now i) × (as_preset result.second ≡ checked_preset edition book.now j) }
{
    let r = open(edition, book);
    let count = presets(r);
    let first = preset(r, i);
    let second = preset(r, j);
    Answers {
        count,
        first,
        second,
    }
}

// The letters of a preset, which outlive the opened book.
fn letters_of(edition: Edition, book: &[u8], number: usize) -> &[u8]
    ensures result_value { result.now ≡ letters_of edition book.now number }
    ensures ref_ptr_value { (result.ref_ptr.0 ≡ book.entry.ref_ptr.0) × (result.ref_ptr.1 ≡ book.entry.ref_ptr.1 + letters_start edition book.now number) }
{
    preset_letters(open(edition, book), number)
}

// Whether the preset is found with this kind and rank, and so many letters from byte `start` on. Presets and groups are not
// compared by `==`, since nothing else would use it.
fn is_found(
    answer: Result<Preset, Refusal>,
    kind: Kind,
    rank: u8,
    start: usize,
    size: usize,
) -> bool {
    answer.is_ok_and(|p| {
        p.group.kind == kind && p.group.rank == rank && p.start == start && p.length == size
    })
}

// Whether the preset is refused so.
fn is_refused(answer: Result<Preset, Refusal>, refusal: Refusal) -> bool {
    answer.is_err_and(|r| r == refusal)
}

// J13's book: two presets, whose letters begin at bytes s and e.
pub(crate) fn found(edition: Edition, book: &[u8], s: usize, e: usize) -> usize
    ensures { result ≤ 3 }
{
    let answers = asked(edition, book, 0, 1);
    held(&[
        answers.count == Ok(2),
        is_found(answers.first, Kind::B, 2, s, 4),
        is_found(answers.second, Kind::D, 5, e, 6),
    ])
}

// A book for which opening returns `opened`; presets i and j of it are refused so.
pub(crate) fn refused(
    edition: Edition,
    book: &[u8],
    opened: Result<usize, Refusal>,
    i: usize,
    j: usize,
    refusal: Refusal,
) -> usize
    ensures { result ≤ 3 }
{
    let answers = asked(edition, book, i, j);
    held(&[
        answers.count == opened,
        is_refused(answers.first, refusal),
        is_refused(answers.second, refusal),
    ])
}

// The letters of a preset; a refused one has none.
pub(crate) fn letters(edition: Edition, book: &[u8], number: usize, word: &[u8]) -> bool {
    letters_of(edition, book, number) == word
}
