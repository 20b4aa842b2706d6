// The delay table.
ghost use Rattle.std.specs.Prelude.{◌≡◌, ◌^◌, ◌<◌, IfOk};
ghost use Rattle.coxeter.specs.answers.Answer.{as_answer};
ghost use Rattle.c_api.specs.Calls.{number_of, delay_table_listed};

use crate::numbers::{byte, number_of};
use coxeter::Refusal;
use delay::{delay_table, tabled_group};

// CO9, IC3: a table with its lengths, of a kind and a rank that are bytes. Every output is checked before any is
// written. Returns the greatest length.
fn table(
    kind: u8,
    rank: u8,
    counts: &mut [u64],
    window: &mut [i8],
    form: &mut [u8],
    lengths: &mut [u64],
) -> Result<usize, Refusal>
    ensures fits { IfOk result (λ l. l < 2 ^ 63) }
    ensures numbers { (number_of (as_answer result), ((counts.new, window.new, form.new), lengths.new))
        ≡ delay_table_listed kind rank counts.old window.old form.old lengths.old }
{
    let Some(front) = lengths.first_chunk_mut() else {
        tabled_group(kind, rank)?;
        return Err(Refusal::OutputTooShort);
    };
    let table = delay_table(kind, rank, counts, window, form)?;
    *front = [
        table.counts as u64,
        table.entries as u64,
        table.letters as u64,
    ];
    Ok(table.letters)
}

// I24: how many windows of a kind and a rank have each length, from 0 to the greatest, written to the front of
// `counts`; the longest window, written to that of `window`; its normal form, written to that of `form`. The length
// of each goes to the first three places of `lengths`. Returns the greatest length. Refusals 5, 6 and 20, then 14
// for any of the four.
pub fn winnathey_delay_table(
    kind: u32,
    rank: u32,
    counts: &mut [u64],
    window: &mut [i8],
    form: &mut [u8],
    lengths: &mut [u64],
) -> i64
    ensures { (result, ((counts.new, window.new, form.new), lengths.new))
        ≡ delay_table_listed kind rank counts.old window.old form.old lengths.old }
{
    number_of(table(byte(kind), byte(rank), counts, window, form, lengths))
}
