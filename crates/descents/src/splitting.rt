// The two words of a split, from the window of the preset.
ghost use Rattle.coxeter.specs.Windows.{window, product, inverse};
ghost use Rattle.coxeter.specs.NormalForm.{normal_form};
ghost use Rattle.shortest_words.specs.answers.Split.{as_split};
ghost use Rattle.shortest_words.specs.Allowed.{allows};
ghost use Rattle.shortest_words.specs.Split.{first_word, second_word};
ghost use Rattle.shortest_words.specs.SplitCalls.{split_outcome, SplitYields};

use crate::stripping::strip;
use coxeter::{Refusal, Window, Word};
use shortest_words::SplitLengths;
use window::{
    Windows, lacks_room, write_form_of_inverse, write_form_of_product, write_inverse, write_window,
};

// The two words of a window, the first of the pair. The second is the inverse of what is left of it: what was taken off
// is the product of the two. The second output is checked before the first is written.
fn write_parts(pair: Windows, first: &mut [u8], second: &mut [u8]) -> Result<SplitLengths, Refusal>
    ensures { SplitYields (split_outcome 0
        (normal_form pair.entry.group.kind pair.entry.group.rank (product pair.entry.first.now pair.entry.second.now))
        (normal_form pair.entry.group.kind pair.entry.group.rank (inverse pair.entry.second.now)) first.old second.old)
        (as_split result) first.new second.new }
{
    let rest = Window {
        group: pair.group,
        entries: pair.second,
    };
    if lacks_room(rest, second.len()) {
        return Err(Refusal::OutputTooShort);
    }
    let first = write_form_of_product(pair, first)?;
    let second = write_form_of_inverse(rest, second)?;
    Ok(SplitLengths { first, second })
}

// The split of a window: steps are taken off its front, that is, off the end of its inverse.
fn split_window(
    w: Window,
    allowed: u64,
    first: &mut [u8],
    second: &mut [u8],
) -> Result<SplitLengths, Refusal>
    ensures { SplitYields (split_outcome 0
        (first_word (allows allowed) w.entry.group.kind w.entry.group.rank w.entry.entries.now)
        (second_word (allows allowed) w.entry.group.kind w.entry.group.rank w.entry.entries.now) first.old second.old)
        (as_split result) first.new second.new }
{
    let mut back = [0i8; 64];
    let m = write_inverse(w, &mut back)?;
    let rest = &mut back[..m];
    strip(w.group, allowed, rest);
    let pair = Windows {
        group: w.group,
        first: w.entries,
        second: rest,
    };
    write_parts(pair, first, second)
}

// The split of a word.
pub(crate) fn split_accepted(
    word: Word,
    allowed: u64,
    first: &mut [u8],
    second: &mut [u8],
) -> Result<SplitLengths, Refusal>
    ensures { SplitYields (split_outcome 0
        (first_word (allows allowed) word.entry.group.kind word.entry.group.rank
        (window word.entry.group.kind word.entry.group.rank word.entry.letters.now))
        (second_word (allows allowed) word.entry.group.kind word.entry.group.rank
        (window word.entry.group.kind word.entry.group.rank word.entry.letters.now))
        first.old second.old) (as_split result) first.new second.new }
{
    let mut work = [0i8; 64];
    let m = write_window(word, &mut work)?;
    let w = Window {
        group: word.group,
        entries: &work[..m],
    };
    split_window(w, allowed, first, second)
}
