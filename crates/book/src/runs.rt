// A run of presets, read with one walk over the book: an array of them, or five numbers for each.
ghost use Rattle.std.specs.Prelude.{◌≡◌, map, ◌+◌, ◌*◌, ◌≤◌, length};
ghost use Rattle.std.proofs.lemmas.List.Edits.{sets};
ghost use Rattle.coxeter.specs.Kinds.{up};
ghost use Rattle.coxeter.specs.answers.Answer.{as_answer};
ghost use Rattle.book_format.specs.answers.Opened.{as_opened};
ghost use Rattle.book_format.specs.answers.Preset.{as_preset};
ghost use Rattle.book_format.specs.Calls.{checked_book, checked_preset, fields_of, preset_fields, reading_presets};

use crate::checked::{CheckedBook, LARGEST};
use book_format::{Edition, Preset, Run};
use window::Refusal;

// The numbers of a preset.
fn numbers_of(answer: Result<Preset, Refusal>) -> [u64; 5]
    ensures { result ≡ fields_of (as_preset answer) }
{
    match answer {
        Ok(preset) => [
            0,
            preset.group.kind.number() as u64,
            preset.group.rank as u64,
            preset.start as u64,
            preset.length as u64,
        ],
        Err(refusal) => [refusal.number() as u64, 0, 0, 0, 0],
    }
}

// Five numbers written from p on, one by one: a copy of the array would wait for its stores.
fn put_five(numbers: &[u64; 5], fields: &mut [u64], p: usize)
    requires { p + 5 ≤ length fields.old }
    ensures { fields.new ≡ sets fields.old p numbers.now }
{
    fields[p] = numbers[0];
    fields[p + 1] = numbers[1];
    fields[p + 2] = numbers[2];
    fields[p + 3] = numbers[3];
    fields[p + 4] = numbers[4];
}

// The numbers of n presets from preset `first` on.
fn put_run(book: &CheckedBook, first: usize, n: usize, fields: &mut [u64])
    requires { (first + n ≤ book.now.presets) × (5 * n ≤ length fields.old) }
    ensures { fields.new ≡ sets fields.old 0 (preset_fields book.now.edition book.now.bytes.now n first) }
{
    for i in 0..n {
        put_five(&numbers_of(book.preset(first + i)), fields, 5 * i);
    }
}

// The 128 presets from preset `start` on.
fn presets_from(book: &CheckedBook, start: usize) -> [Result<Preset, Refusal>; 128]
    requires { start ≤ 65535 }
    ensures { map as_preset result ≡ map (checked_preset book.now.edition book.now.bytes.now) (up start 128) }
{
    let mut presets = [Err(Refusal::NoSuchPreset); 128];
    for (i, preset) in presets.iter_mut().enumerate() {
        *preset = book.preset(start + i);
    }
    presets
}

// I35: what `check_book` returns, and the 128 presets from number `first` on, each as `check_preset` returns it:
// refused 4 past the last one. Checks 1 to 3 are made once for all. No book has the preset 65,535, so that larger
// numbers need not be told apart.
pub fn read_run(edition: Edition, book: &[u8], first: usize) -> Run
    ensures { (as_opened result.opened ≡ checked_book edition book.now) × (result.first ≡ first)
        × (map as_preset result.presets ≡ map (checked_preset edition book.now) (up first 128)) }
{
    match CheckedBook::open(edition, book) {
        Ok(book) => Run {
            opened: Ok(book.presets),
            first,
            presets: presets_from(&book, first.min(LARGEST)),
        },
        Err(refusal) => Run {
            opened: Err(refusal),
            first,
            presets: [Err(refusal); 128],
        },
    }
}

// I30: reads the presets from number `first` on, as many as exist and fit: for each its refusal or 0, its
// kind, its rank, where its letters begin and how many they are. Returns how many presets were written. Checks 1 to
// 3, 4 of the first, and 14 if not one has room.
pub fn read_presets(
    edition: Edition,
    book: &[u8],
    first: usize,
    fields: &mut [u64],
) -> Result<usize, Refusal>
    ensures { (as_answer result ≡ (reading_presets edition book.now first fields.old).answer)
        × (fields.new ≡ (reading_presets edition book.now first fields.old).bytes) }
{
    let book = CheckedBook::open(edition, book)?;
    if book.presets <= first {
        return Err(Refusal::NoSuchPreset);
    }
    if fields.len() < 5 {
        return Err(Refusal::OutputTooShort);
    }
    let n = (book.presets - first).min(fields.len() / 5);
    put_run(&book, first, n, fields);
    Ok(n)
}
