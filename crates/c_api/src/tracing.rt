// The rewriting to its end.
ghost use Rattle.std.specs.Prelude.{◌≡◌, ◌^◌, ◌<◌, length, IfOk};
ghost use Rattle.coxeter.specs.Kinds.{kind_of};
ghost use Rattle.coxeter.specs.Checks.{check, ◌then◌, rank_refusal, word_refusal};
ghost use Rattle.coxeter.specs.Refusals.{refusal_of};
ghost use Rattle.coxeter.specs.answers.Answer.{as_answer};
ghost use Rattle.traces.specs.Traces.{number_of_steps, too_few_places, trace};
ghost use Rattle.c_api.specs.Calls.{number_of, rewriting_to_end_listed};

use crate::numbers::{byte, number_of};
use coxeter::Refusal;
use rewriter::{rewrite_steps, rewrite_to_end};

// I21: how many steps `winnathey_rewrite_to_end` takes: so many places each of its lists must have. For a word of L
// letters that is at most L (L - 1) / 2 (T25). Refusals 5 to 8.
pub fn winnathey_rewrite_steps(kind: u32, rank: u32, word: &[u8]) -> i64
    ensures { result ≡ number_of (number_of_steps kind rank word.now) }
{
    number_of(rewrite_steps(byte(kind), byte(rank), word))
}

// Checks 5 to 8, then 15 of the three lists of a rewriting to its end.
fn check_lists(
    kind: u8,
    rank: u8,
    word: &[u8],
    families: &[u8],
    places: &[u16],
    lengths: &[u16],
) -> Result<(), Refusal>
    ensures { refusal_of result ≡ ((rank_refusal kind rank then word_refusal rank word.now)
        then check 15 (too_few_places (length (trace (kind_of kind) rank word.now).lines)
        families.now places.now lengths.now)) }
{
    let steps = rewrite_steps(kind, rank, word)?;
    if families.len() < steps || places.len() < steps || lengths.len() < steps {
        return Err(Refusal::ListTooShort);
    }
    Ok(())
}

// CO9, IC3: a rewriting to its end with the final word's length, of a kind and a rank that are bytes. Every output
// is checked before any is written. Returns the number of steps.
fn to_end(
    kind: u8,
    rank: u8,
    word: &[u8],
    families: &mut [u8],
    places: &mut [u16],
    lengths: &mut [u16],
    out: &mut [u8],
    written: &mut [u64],
) -> Result<usize, Refusal>
    ensures fits { IfOk result (λ l. l < 2 ^ 63) }
    ensures numbers { (number_of (as_answer result), ((families.new, places.new, lengths.new, out.new), written.new))
        ≡ rewriting_to_end_listed kind rank word.now families.old places.old lengths.old
        out.old written.old }
{
    let Some(front) = written.first_chunk_mut() else {
        check_lists(kind, rank, word, families, places, lengths)?;
        return Err(Refusal::OutputTooShort);
    };
    let rewriting = rewrite_to_end(kind, rank, word, families, places, lengths, out)?;
    *front = [rewriting.length as u64];
    Ok(rewriting.steps)
}

// I20: rewrites the word always at the lowest place where a rule fits, until none fits. The family, the place and
// the length left of each step go to the fronts of the three lists, the final word, which is the normal form, to
// that of `out`, and its length to the first place of `written`. Returns the number of steps. Refusals 5 to 8, 15
// for a list with too few places, and 14 for `out` or `written`.
pub fn winnathey_rewrite_to_end(
    kind: u32,
    rank: u32,
    word: &[u8],
    families: &mut [u8],
    places: &mut [u16],
    lengths: &mut [u16],
    out: &mut [u8],
    written: &mut [u64],
) -> i64
    ensures { (result, ((families.new, places.new, lengths.new, out.new), written.new))
        ≡ rewriting_to_end_listed kind rank word.now families.old places.old lengths.old
        out.old written.old }
{
    number_of(to_end(
        byte(kind),
        byte(rank),
        word,
        families,
        places,
        lengths,
        out,
        written,
    ))
}
