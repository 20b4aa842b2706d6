// Calls on shortest words (I18, I22 and I23 of the specification), implemented with descents: the generators that
// make a window shorter.
//
// No public function has a `requires`: every input is checked in the order of CO2, and what a call returns and
// writes is a definition of shortest_words/specs for every input, refused ones included. Kinds come as numbers
// and are checked here, as K2 and C5 promise.
#![tactic(auto)]

mod allowed;
mod between;
mod splitting;
mod steps;
mod stripping;
mod walk;

ghost use Rattle.std.specs.Prelude.{◌≡◌, IfOk};
ghost use Rattle.coxeter.specs.Kinds.{kind_of};
ghost use Rattle.coxeter.specs.Windows.{window};
ghost use Rattle.coxeter.specs.Refusals.{refusal_of};
ghost use Rattle.coxeter.specs.Checks.{◌then◌, word_refusal};
ghost use Rattle.coxeter.specs.NormalForm.{word_normal_form};
ghost use Rattle.shortest_words.specs.answers.Fallback.{as_fallback};
ghost use Rattle.shortest_words.specs.answers.Split.{as_split};
ghost use Rattle.shortest_words.specs.Allowed.{set_refusal};
ghost use Rattle.shortest_words.specs.Calls.{FellBack};
ghost use Rattle.shortest_words.specs.SplitCalls.{splitting, SplitYields};
ghost use Rattle.shortest_words.proofs.Verdicts.{Decided};

use allowed::group_with_set;
pub use between::between_windows;
pub use coxeter::{Refusal, Word};
use refusals::{accepted_word, accepted_words};
pub use shortest_words::SplitLengths;
use splitting::split_accepted;
use walk::decide;
use window::{write_form_of_word, write_window};

// The verdict on two words of one group, by the normal form of the first and the window of the second.
fn decide_words(present: Word, simpler: Word, places: &mut [u16]) -> Result<Option<usize>, Refusal>
    requires same_kind { simpler.group.kind ≡ present.group.kind }
    requires same_rank { simpler.group.rank ≡ present.group.rank }
    ensures { Decided present.entry.group.kind present.entry.group.rank
        (word_normal_form present.entry.group.kind present.entry.group.rank present.entry.letters.now)
        (window present.entry.group.kind present.entry.group.rank simpler.entry.letters.now)
        places.old (as_fallback result) places.new }
{
    let mut target = [0i8; 64];
    let m = write_window(simpler, &mut target)?;
    let mut form = [0u8; 4096];
    let l = write_form_of_word(present, &mut form)?;
    decide(present.group, &mut form[..l], &mut target[..m], places)
}

// I18: whether the simpler word's window can be reached by removing letters from the normal form of the present word.
// If it can, the places of letters to keep are written to the front of `places`, rising; if not, nothing is written.
// Checks 5 and 6, then 7 and 8 of the present word, then of the simpler one, and 14 only if there is a fallback.
pub fn fallback_places(
    kind: u8,
    rank: u8,
    present: &[u8],
    simpler: &[u8],
    places: &mut [u16],
) -> Result<Option<usize>, Refusal>
    ensures { FellBack kind rank present.now simpler.now places.old (as_fallback result) places.new }
{
    let (present, simpler) = accepted_words(kind, rank, present, simpler)?;
    decide_words(present, simpler, places)
}

// I33: the word of a split, after checks 5, 6, 16, 7, 8, in this order.
pub fn check_split<'a>(
    kind: u8,
    rank: u8,
    allowed: u64,
    word: &'a [u8],
) -> Result<Word<'a>, Refusal>
    ensures refusal { refusal_of result ≡ (set_refusal kind rank allowed then word_refusal rank word.now) }
    ensures word { IfOk result (λ u. (u.group.kind ≡ kind_of kind) × (u.group.rank ≡ rank) × (u.letters ≡ word.entry)) }
{
    group_with_set(kind, rank, allowed)?;
    accepted_word(kind, rank, word)
}

// I22: splits a word by the set `allowed`, bit 0 for step 1: a first word over allowed steps, then one whose window
// has no shortest word that begins with one. Writes each, a normal form, to the front of its output and returns
// both lengths. Checks 5, 6, 16, 7, 8, and 14 of both outputs before either is written.
pub fn split_word(
    kind: u8,
    rank: u8,
    allowed: u64,
    word: &[u8],
    first: &mut [u8],
    second: &mut [u8],
) -> Result<SplitLengths, Refusal>
    ensures { SplitYields (splitting kind rank allowed word.now first.old second.old)
        (as_split result) first.new second.new }
{
    let word = check_split(kind, rank, allowed, word)?;
    split_accepted(word, allowed, first, second)
}
