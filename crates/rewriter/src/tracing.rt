// The rewriting to its end: the letters are read one by one behind a normal form, in a work array, and each is
// carried to its place.
ghost use Rattle.std.specs.Prelude.{◌≡◌, ◌≤◌, length};
ghost use Rattle.coxeter.specs.Calls.{front};
ghost use Rattle.traces.specs.Traces.{trace, families_of, places_of, lengths_of};
ghost use Rattle.traces.proofs.Tracing.{Made};

use crate::carrying::{Steps, insert};
use crate::writing::copy;
use traces::Rewriting;
use window::Word;

// The letters of an accepted word read one by one, and each step noted; the final word is left at the front of `work`,
// since the library has no heap. Returns how many letters it has.
fn read(word: Word<'_>, steps: &mut Steps<'_>, work: &mut [u8]) -> usize
    requires none_made { steps.old.made ≡ 0 }
    requires word_in_bounds { length word.letters.now ≤ length work.old }
    ensures same_lists { (steps.new.families.ghost_name ≡ steps.old.families.ghost_name)
        × (steps.new.places.ghost_name ≡ steps.old.places.ghost_name)
        × (steps.new.lengths.ghost_name ≡ steps.old.lengths.ghost_name) }
    ensures made { Made word.entry.group.kind word.entry.group.rank word.entry.letters.now steps.old.families.now steps.old.places.now steps.old.lengths.now
        steps.new.made steps.new.families.now steps.new.places.now steps.new.lengths.now work.new result }
{
    let letters = word.letters;
    let mut size = 0;
    for (i, letter) in letters.iter().enumerate() {
        work[size] = *letter;
        size = insert(word.group, &letters[i + 1..], steps, &mut work[..size + 1]);
    }
    size
}

// The rewriting of an accepted word, noted in three equally long lists as far as they go; the final word is left at
// the front of `work`. The lists are lent one by one, since the proof does not close where a struct of parts of slices is.
fn make(
    word: Word<'_>,
    families: &mut [u8],
    places: &mut [u16],
    lengths: &mut [u16],
    work: &mut [u8],
) -> Rewriting
    requires places_len { (length places.old ≡ length families.old) × (length lengths.old ≡ length families.old) }
    requires word_in_bounds { length word.letters.now ≤ length work.old }
    ensures { Made word.entry.group.kind word.entry.group.rank word.entry.letters.now families.old places.old lengths.old
        result.steps families.new places.new lengths.new work.new result.length }
{
    let mut steps = Steps {
        made: 0,
        families,
        places,
        lengths,
    };
    let length = read(word, &mut steps, work);
    Rewriting {
        steps: steps.made,
        length,
    }
}

// How many steps the rewriting of an accepted word has, and how many letters its final word, with a work array of N
// letters. No step is noted.
fn count_in<const N: usize>(word: Word<'_>) -> Rewriting
    requires word_in_bounds { (length word.letters.now ≤ N) × (N ≤ 4096) }
    ensures { (result.steps ≡ length (trace word.entry.group.kind word.entry.group.rank word.entry.letters.now).lines)
        × (result.length ≡ length (trace word.entry.group.kind word.entry.group.rank word.entry.letters.now).final) }
{
    let mut work = [0; N];
    make(word, &mut [], &mut [], &mut [], &mut work)
}

// `count_in` with a work array that is large enough; a small one takes less time to make.
pub(crate) fn count(word: Word<'_>) -> Rewriting
    ensures { (result.steps ≡ length (trace word.entry.group.kind word.entry.group.rank word.entry.letters.now).lines)
        × (result.length ≡ length (trace word.entry.group.kind word.entry.group.rank word.entry.letters.now).final) }
{
    if word.letters.len() <= 128 {
        return count_in::<128>(word);
    }
    count_in::<4096>(word)
}

// The rewriting of an accepted word, which has `steps` steps, written to lists and an output with room for it, by a
// work array of N letters.
fn write_in<const N: usize>(
    word: Word<'_>,
    steps: usize,
    families: &mut [u8],
    places: &mut [u16],
    lengths: &mut [u16],
    out: &mut [u8],
)
    requires steps_value { steps ≡ length (trace word.group.kind word.group.rank word.letters.now).lines }
    requires steps_in_bounds { (steps ≤ length families.old) × (steps ≤ length places.old) × (steps ≤ length lengths.old) }
    requires word_in_bounds { length (trace word.group.kind word.group.rank word.letters.now).final ≤ length out.old }
    requires word_in_bounds_2 { (length word.letters.now ≤ N) × (N ≤ 4096) }
    ensures { (families.new ≡ front (families_of (trace word.entry.group.kind word.entry.group.rank word.entry.letters.now).lines) families.old)
        × (places.new ≡ front (places_of (trace word.entry.group.kind word.entry.group.rank word.entry.letters.now).lines) places.old)
        × (lengths.new ≡ front (lengths_of (trace word.entry.group.kind word.entry.group.rank word.entry.letters.now).lines) lengths.old)
        × (out.new ≡ front (trace word.entry.group.kind word.entry.group.rank word.entry.letters.now).final out.old) }
{
    let mut work = [0; N];
    let made = make(
        word,
        &mut families[..steps],
        &mut places[..steps],
        &mut lengths[..steps],
        &mut work,
    );
    copy(&work[..made.length], out, 0);
}

// `write_in` with a work array that is large enough.
pub(crate) fn write_trace(
    word: Word<'_>,
    steps: usize,
    families: &mut [u8],
    places: &mut [u16],
    lengths: &mut [u16],
    out: &mut [u8],
)
    requires steps_value { steps ≡ length (trace word.group.kind word.group.rank word.letters.now).lines }
    requires steps_in_bounds { (steps ≤ length families.old) × (steps ≤ length places.old) × (steps ≤ length lengths.old) }
    requires word_in_bounds { length (trace word.group.kind word.group.rank word.letters.now).final ≤ length out.old }
    ensures { (families.new ≡ front (families_of (trace word.entry.group.kind word.entry.group.rank word.entry.letters.now).lines) families.old)
        × (places.new ≡ front (places_of (trace word.entry.group.kind word.entry.group.rank word.entry.letters.now).lines) places.old)
        × (lengths.new ≡ front (lengths_of (trace word.entry.group.kind word.entry.group.rank word.entry.letters.now).lines) lengths.old)
        × (out.new ≡ front (trace word.entry.group.kind word.entry.group.rank word.entry.letters.now).final out.old) }
{
    if word.letters.len() <= 128 {
        write_in::<128>(word, steps, families, places, lengths, out);
        return;
    }
    write_in::<4096>(word, steps, families, places, lengths, out);
}
