// The numbers that the calls for C return.
ghost use Rattle.std.specs.Prelude.{◌≡◌, ◌+◌, ◌^◌, ◌<◌, ltb, IfOk};
ghost use Rattle.coxeter.specs.Kinds.{pick};
ghost use Rattle.coxeter.specs.answers.Answer.{as_answer};
ghost use Rattle.coxeter.specs.answers.Counted.{as_counted};
ghost use Rattle.c_api.specs.Calls.{refused, number_of, crossing_numbers, listed};

use coxeter::{LengthCounts, Refusal};

// IC5: a kind or a rank as the calls below take it. Values above 255 become 0, which every call refuses.
pub(crate) fn byte(x: u32) -> u8
    ensures { result ≡ pick (ltb 255 x) 0 x }
{
    u8::try_from(x).unwrap_or(0)
}

// IC2: the number of a refusal.
pub(crate) fn refusal_number(k: u8) -> i64
    ensures { result ≡ refused k }
{
    -(k as i64)
}

// IC2: the number of a length or of a number of steps, or of the refusal. Each caller shows the bound: a type for
// lengths that fit an `i64` would be built only to be taken apart here, which is no plainer.
pub(crate) fn number_of(answer: Result<usize, Refusal>) -> i64
    requires { IfOk answer (λ l. l < 2 ^ 63) }
    ensures { result ≡ number_of (as_answer answer) }
{
    match answer {
        Ok(l) => l as i64,
        Err(refusal) => refusal_number(refusal.number()),
    }
}

// Writes the three counts of a length to the front of `list` and returns their total. Refusal 14.
pub(crate) fn write_crossings(
    counts: Result<LengthCounts, Refusal>,
    list: &mut [u64],
) -> Result<usize, Refusal>
    requires { IfOk counts (λ c. c.inversions + c.negative_sum_pairs + c.negatives < 2 ^ 63) }
    ensures fits { IfOk result (λ l. l < 2 ^ 63) }
    ensures numbers { (number_of (as_answer result), list.new) ≡ listed (crossing_numbers (as_counted counts)) list.old }
{
    let counts = counts?;
    *list.first_chunk_mut().ok_or(Refusal::OutputTooShort)? = [
        counts.inversions as u64,
        counts.negative_sum_pairs as u64,
        counts.negatives as u64,
    ];
    Ok(counts.inversions + counts.negative_sum_pairs + counts.negatives)
}
