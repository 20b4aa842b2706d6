// The rewriter layer: one rewrite at a named place, and the rewriting to its end (I19 to I21 of the specification).
// No public function has a `requires`. Kinds come as numbers and are checked here, as K2 and C5 promise.
#![tactic(auto)]

ghost use Rattle.std.specs.Prelude.{◌≡◌};
ghost use Rattle.coxeter.specs.answers.Answer.{as_answer};
ghost use Rattle.rules.specs.Calls.{Rewrote, single};
ghost use Rattle.traces.specs.answers.ToEnd.{as_to_end};
ghost use Rattle.traces.specs.Traces.{TraceYields, rewriting_to_end, number_of_steps};

pub use rules::Rewrite;
use search::fitting_rule;
pub use traces::Rewriting;
use tracing::{count, write_trace};
pub use window::Refusal;
use window::accepted_word;
use writing::{new_length, write_rewritten};

mod carrying;
mod ending;
mod search;
mod tracing;
mod writing;

// I19: replaces the left side of the rule that fits at `place`; at one place at most one does (R15). The new word
// goes to the front of `out`. If none fits, or a check refuses the call, nothing is written.
pub fn rewrite_at(kind: u8, rank: u8, word: &[u8], place: usize, out: &mut [u8]) -> Rewrite
    ensures { Rewrote single kind rank word.now place out.old out.new result }
{
    let word = match accepted_word(kind, rank, word) {
        Ok(word) => word,
        // G14 names the outcome `Rewrite`, in which a refusal is a number.
        Err(refusal) => return Rewrite::Refused(refusal.number()),
    };
    let size = word.letters.len();
    if size <= place {
        return Rewrite::Refused(Refusal::PlacePastEnd.number());
    }
    let Some(rule) = fitting_rule(word, place) else {
        return Rewrite::NoneFits;
    };
    let length = new_length(rule, size);
    if out.len() < length {
        return Rewrite::Refused(Refusal::OutputTooShort.number());
    }
    write_rewritten(word, rule, place, out);
    Rewrite::Used {
        family: rule.family,
        i: rule.i,
        j: rule.j,
        length,
    }
}

// I21: how many steps the rewriting to its end takes: so many places each list of `rewrite_to_end` must have. For a
// word of L letters that is at most L (L - 1) / 2 (T25). Checks 5, 6, 7, 8.
pub fn rewrite_steps(kind: u8, rank: u8, word: &[u8]) -> Result<usize, Refusal>
    ensures { as_answer result ≡ number_of_steps kind rank word.now }
{
    let word = accepted_word(kind, rank, word)?;
    let counted = count(word);
    Ok(counted.steps)
}

// I20: rewrites always at the lowest place where a rule fits, until none fits. Writes family, place and length left
// of each step to the fronts of the three lists and the final word, which is the normal form, to that of `out`.
// Checks 5, 6, 7, 8, 15, 14, all before anything is written.
pub fn rewrite_to_end(
    kind: u8,
    rank: u8,
    word: &[u8],
    families: &mut [u8],
    places: &mut [u16],
    lengths: &mut [u16],
    out: &mut [u8],
) -> Result<Rewriting, Refusal>
    ensures { TraceYields (rewriting_to_end kind rank word.now families.old places.old lengths.old
        out.old) (as_to_end result) families.new places.new lengths.new out.new }
{
    let word = accepted_word(kind, rank, word)?;
    let counted = count(word);
    let steps = counted.steps;
    if families.len() < steps || places.len() < steps || lengths.len() < steps {
        return Err(Refusal::ListTooShort);
    }
    if out.len() < counted.length {
        return Err(Refusal::OutputTooShort);
    }
    write_trace(word, steps, families, places, lengths, out);
    Ok(counted)
}
