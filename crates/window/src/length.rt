// The length of a window, whole and as its three counts, in one pass over its entries.
ghost use Rattle.std.specs.Prelude.{◌≡◌, ◌+◌, ◌-◌, ◌*◌, ◌/◌, ◌^◌, ◌≤◌, ◌<◌, Ok};
ghost use Rattle.std.specs.Int.Bits.{bit_or};
ghost use Rattle.std.specs.Int.Count.{ones};
ghost use Rattle.coxeter.specs.Length.{inversions, negative_sum_pairs, negatives, crossings, window_length};
ghost use Rattle.coxeter.specs.Calls.{counted_of};
ghost use Rattle.coxeter.specs.answers.Counted.{as_counted};

use coxeter::{Kind, LengthCounts, Window};
use refusals::{is_negative, size};

// What a length is made of: the pairs of both sorts, the negative sum pairs among them, and the negative entries.
#[derive(Clone, Copy)]
struct Parts {
    pairs: usize,
    negative_sum_pairs: usize,
    negatives: usize,
}

// How many sizes, or positions, of a set are s or larger; s is bit s - 1. The set has m bits; 8 are counted as a byte,
// in fewer steps.
pub(crate) fn larger_behind(m: usize, set: u64, s: u8) -> usize
    requires { (1 ≤ s) × (s ≤ 64) × (set < 2 ^ m) }
    ensures { result ≡ ones (set / 2 ^ (s - 1)) }
{
    let rest = set >> (s - 1);
    if m <= 8 {
        return u8::count_ones(rest as u8) as usize;
    }
    u64::count_ones(rest) as usize
}

// A set and the size s.
fn with_size(set: u64, s: u8) -> u64
    requires { (1 ≤ s) × (s ≤ 64) }
    ensures { result ≡ bit_or set (2 ^ (s - 1)) }
{
    set | (1u64 << (s - 1))
}

// One pass from the last entry to the first, with the set of the sizes behind. An entry makes one pair with each
// entry behind, of one sort or the other, but with a larger one two if it is negative, and none if not. A negative
// entry has a negative sum pair with each larger size.
fn parts_of(window: Window) -> Parts
    ensures { (result.pairs ≡ inversions window.entry.entries.now + negative_sum_pairs window.entry.entries.now)
        × (result.negative_sum_pairs ≡ negative_sum_pairs window.entry.entries.now)
        × (result.negatives ≡ negatives window.entry.entries.now) }
{
    let entries = window.entries;
    let m = entries.len();
    let mut behind: u64 = 0;
    let mut pairs = (m * m - m) / 2;
    let mut negative_sum_pairs: usize = 0;
    let mut negatives: usize = 0;
    for i in (0..m).rev() {
        let e = entries[i];
        let s = size(e);
        let larger = larger_behind(m, behind, s);
        behind = with_size(behind, s);
        if is_negative(e) {
            pairs += larger;
            negative_sum_pairs += m - s as usize;
            negatives += 1;
        } else {
            pairs -= larger;
        }
    }
    Parts {
        pairs,
        negative_sum_pairs,
        negatives,
    }
}

// The length of a window as its three counts. In kind A no entry is negative, so that all pairs are inversions.
pub(crate) fn crossings_of(window: Window) -> LengthCounts
    ensures { as_counted (Ok result) ≡ counted_of 0 (crossings window.entry.group.kind window.entry.entries.now) }
{
    let parts = parts_of(window);
    let negatives = match window.group.kind {
        Kind::B => parts.negatives,
        Kind::A | Kind::D => 0,
    };
    LengthCounts {
        inversions: parts.pairs - parts.negative_sum_pairs,
        negative_sum_pairs: parts.negative_sum_pairs,
        negatives,
    }
}

// I12: the length of a window, from its entries alone.
pub(crate) fn length_of(window: Window) -> usize
    ensures { result ≡ window_length window.entry.group.kind window.entry.entries.now }
{
    let parts = parts_of(window);
    match window.group.kind {
        Kind::B => parts.pairs + parts.negatives,
        Kind::A | Kind::D => parts.pairs,
    }
}
