// From one window to another over allowed steps, with no search: the normal form of the window between the two has
// an allowed letter at every place exactly when some word over the allowed steps leads there, and is then the least
// of those words.
ghost use Rattle.std.specs.Prelude.{◌≡◌, not, ◌*◌, ◌≤◌};
ghost use Rattle.coxeter.specs.Checks.{check, WordOf};
ghost use Rattle.coxeter.specs.Calls.{Yields, writes};
ghost use Rattle.coxeter.specs.answers.Answer.{as_answer};
ghost use Rattle.shortest_words.specs.Allowed.{over, allows};
ghost use Rattle.shortest_words.specs.Between.{between};
ghost use Rattle.shortest_words.specs.BetweenCalls.{unreachable, between_windows};

use crate::allowed::{group_with_set, is_allowed};
use coxeter::Refusal;
use refusals::accepted_windows;
use window::{Windows, write_form_between};

// Whether every letter of a word of steps is allowed.
fn are_allowed(allowed: u64, word: &[u8]) -> bool
    requires { WordOf 64 word.now }
    ensures { result ≡ over (allows allowed) word.now }
{
    word.iter().all(|s| is_allowed(allowed, *s as usize))
}

// Writes a word of steps to the front of `out`, or refuses with 19 where a letter is not allowed, then 14.
fn write_allowed(allowed: u64, word: &[u8], out: &mut [u8]) -> Result<usize, Refusal>
    requires { WordOf 64 word.now }
    ensures { Yields (writes (check 19 (not (over (allows allowed) word.now))) word.now out.old)
        (as_answer result) out.new }
{
    if !are_allowed(allowed, word) {
        return Err(Refusal::OutOfReach);
    }
    let l = word.len();
    if out.len() < l {
        return Err(Refusal::OutputTooShort);
    }
    out[..l].copy_from_slice(word);
    Ok(l)
}

// From one window of a group to another, over allowed steps. The normal form of the window between the two is first
// written to a work array of N letters, which has room for it; the fewer they are, the less time it takes to make.
fn write_between<const N: usize>(
    allowed: u64,
    pair: Windows,
    out: &mut [u8],
) -> Result<usize, Refusal>
    requires rank_in_bounds { pair.group.rank * pair.group.rank ≤ N }
    requires n_bound { N ≤ 4096 }
    ensures { Yields (writes (check 19 (unreachable pair.entry.group.kind pair.entry.group.rank allowed pair.entry.first.now pair.entry.second.now))
        (between pair.entry.group.kind pair.entry.group.rank pair.entry.first.now pair.entry.second.now) out.old)
        (as_answer result) out.new }
{
    let mut form = [0u8; N];
    let l = write_form_between(pair, &mut form)?;
    write_allowed(allowed, &form[..l], out)
}

// I23: writes the normal form of the word over allowed steps that leads from one window to the other, and returns
// its length; bit 0 of `allowed` stands for step 1. Checks 5, 6 and 16, then 9 to 11 of `from`, then of `to`, 19 if
// no word over the allowed steps leads there, 14.
pub fn between_windows(
    kind: u8,
    rank: u8,
    allowed: u64,
    from: &[i8],
    to: &[i8],
    out: &mut [u8],
) -> Result<usize, Refusal>
    ensures { Yields (between_windows kind rank allowed from.now to.now out.old) (as_answer result) out.new }
{
    let group = group_with_set(kind, rank, allowed)?;
    accepted_windows(kind, rank, from, to)?;
    // Of the slices that were passed: those of the result would be copied from what two stores have just written.
    let pair = Windows {
        group,
        first: from,
        second: to,
    };
    match rank {
        0..=8 => write_between::<64>(allowed, pair, out),
        9..=16 => write_between::<256>(allowed, pair, out),
        _ => write_between::<4096>(allowed, pair, out),
    }
}
