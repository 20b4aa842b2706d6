// Words split by allowed steps.
ghost use Rattle.std.specs.Prelude.{◌≡◌, ◌^◌, ◌<◌, IfOk};
ghost use Rattle.coxeter.specs.answers.Answer.{as_answer};
ghost use Rattle.c_api.specs.Calls.{number_of, splitting_listed};

use crate::numbers::{byte, number_of};
use coxeter::Refusal;
use descents::{check_split, split_word};

// CO9, IC3: a split with its lengths, of a kind and a rank that are bytes. Every output is checked before any is
// written. Returns the sum of the two lengths.
fn split(
    kind: u8,
    rank: u8,
    allowed: u64,
    word: &[u8],
    first: &mut [u8],
    second: &mut [u8],
    lengths: &mut [u64],
) -> Result<usize, Refusal>
    ensures fits { IfOk result (λ l. l < 2 ^ 63) }
    ensures numbers { (number_of (as_answer result), ((first.new, second.new), lengths.new))
        ≡ splitting_listed kind rank allowed word.now first.old second.old lengths.old }
{
    let Some(front) = lengths.first_chunk_mut() else {
        check_split(kind, rank, allowed, word)?;
        return Err(Refusal::OutputTooShort);
    };
    let split = split_word(kind, rank, allowed, word, first, second)?;
    *front = [split.first as u64, split.second as u64];
    Ok(split.first + split.second)
}

// I22: a word split by the set of allowed steps, bit 0 for step 1: the first word is over allowed steps, the
// second's window has no shortest word that begins with one. Each is a normal form, written to the front of its
// output, and the length of each goes to the first two places of `lengths`. Returns the sum of the two lengths.
// Refusals 5, 6, 16, 7 and 8, then 14 for any of the three.
pub fn winnathey_split(
    kind: u32,
    rank: u32,
    allowed: u64,
    word: &[u8],
    first: &mut [u8],
    second: &mut [u8],
    lengths: &mut [u64],
) -> i64
    ensures { (result, ((first.new, second.new), lengths.new))
        ≡ splitting_listed kind rank allowed word.now first.old second.old lengths.old }
{
    number_of(split(
        byte(kind),
        byte(rank),
        allowed,
        word,
        first,
        second,
        lengths,
    ))
}
