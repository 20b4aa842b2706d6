// One rewrite at a named place.
ghost use Rattle.std.specs.Prelude.{◌≡◌, []};
ghost use Rattle.c_api.specs.Calls.{rewriting};

use crate::numbers::{byte, refusal_number};
use coxeter::Refusal;
use rewriter::{Rewrite, rewrite_at};

// The number where the rule has no room: nothing can be written, so the rewrite gets an empty output.
fn refused_rule(kind: u8, rank: u8, word: &[u8], place: usize) -> i64
    ensures { result ≡ (rewriting kind rank word.now place [] []).0 }
{
    match rewrite_at(kind, rank, word, place, &mut []) {
        Rewrite::Used { .. } => refusal_number(Refusal::OutputTooShort.number()),
        Rewrite::NoneFits => -100,
        Rewrite::Refused(refusal) => refusal_number(refusal),
    }
}

// CO9, IC3: one rewrite with its rule, of a kind and a rank that are bytes. Both outputs are checked before either
// is written.
fn rewrite(kind: u8, rank: u8, word: &[u8], place: usize, out: &mut [u8], rule: &mut [u8]) -> i64
    ensures { (result, (out.new, rule.new)) ≡ rewriting kind rank word.now place out.old rule.old }
{
    let Some(front) = rule.first_chunk_mut() else {
        return refused_rule(kind, rank, word, place);
    };
    match rewrite_at(kind, rank, word, place, out) {
        Rewrite::Used {
            family,
            i,
            j,
            length,
        } => {
            *front = [family, i, j];
            length as i64
        }
        Rewrite::NoneFits => -100,
        Rewrite::Refused(refusal) => refusal_number(refusal),
    }
}

// I19, IC4: one rewrite of the word at the place, which counts from 0. The new word goes to the front of `out`, and
// the rule's family, i and j to the first three bytes of `rule`. Returns the new length, or -100 if none fits.
// Refusals 5 to 8, 12, and 14, which concerns both outputs.
pub fn winnathey_rewrite(
    kind: u32,
    rank: u32,
    word: &[u8],
    place: usize,
    out: &mut [u8],
    rule: &mut [u8],
) -> i64
    ensures { (result, (out.new, rule.new)) ≡ rewriting kind rank word.now place out.old rule.old }
{
    rewrite(byte(kind), byte(rank), word, place, out, rule)
}
