// Calls on shortest words.
ghost use Rattle.std.specs.Prelude.{◌≡◌};
ghost use Rattle.shortest_words.specs.BetweenCalls.{between_windows};
ghost use Rattle.c_api.specs.Calls.{numbered};
ghost use Rattle.c_api.specs.Shortest.{FallbackNumbered};

use crate::numbers::{byte, number_of, refusal_number};
use descents::fallback_places;

// I18, IC4: whether a simpler word's window can be reached by removing letters from the normal form of the present
// word. The places of letters to keep, which count from 0 and rise, go to the front of `places`. Returns how many
// are kept, or -101 if the verdict is no. Refusals 5 to 8, and 14 only if there is a fallback.
pub fn winnathey_fallback(
    kind: u32,
    rank: u32,
    present: &[u8],
    simpler: &[u8],
    places: &mut [u16],
) -> i64
    ensures { FallbackNumbered kind rank present.now simpler.now places.old result places.new }
{
    match fallback_places(byte(kind), byte(rank), present, simpler, places) {
        Ok(Some(kept)) => kept as i64,
        Ok(None) => -101,
        Err(refusal) => refusal_number(refusal.number()),
    }
}

// I23: the normal form of the word over the allowed steps that leads from one window to another, written to the
// front of `out`. Bit 0 of `allowed` stands for step 1. Returns its length. Refusals 5 and 6, 16, 9 to 11 for each
// window, 19 if no word over the allowed steps leads there, 14.
pub fn winnathey_between(
    kind: u32,
    rank: u32,
    allowed: u64,
    from: &[i8],
    to: &[i8],
    out: &mut [u8],
) -> i64
    ensures { (result, out.new) ≡ numbered (between_windows kind rank allowed from.now to.now out.old) }
{
    number_of(descents::between_windows(byte(kind), byte(rank), allowed, from, to, out))
}
