// How many windows have each length: the product of one factor a level, multiplied out in place. A factor is one
// running sum, in kind D with a shifted sum after it. No sum is greater than the number of all windows, so all fit
// 64 bits.
ghost use Rattle.std.specs.Prelude.{◌≡◌, ℕ, ◌+◌, ◌-◌, ◌^◌, ◌≤◌, ◌<◌, length};
ghost use Rattle.coxeter.specs.Length.{greatest_length};
ghost use Rattle.coxeter.specs.Calls.{front};
ghost use Rattle.distribution.specs.Distribution.{distribution};
ghost use Rattle.distribution.specs.Calls.{greatest_tabled};
ghost use Rattle.distribution.proofs.Sums.{below};
ghost use Rattle.distribution.proofs.Factors.{sum_to, running, factor};
ghost use Rattle.distribution.proofs.Products.{fewest, product};
ghost use Rattle.distribution.proofs.Values.{values, value_at, Fit};

use crate::lengths::{fewest_of, greatest_length, top_of};
use coxeter::{Group, Kind};

// 1, 0, 0, ..: before the first level.
fn set_one(kind: Kind, counts: &mut [u64])
    requires { 1 ≤ length counts.old }
    ensures { counts.new ≡ values (product kind 0) (length counts.old) }
{
    counts.fill(0);
    counts[0] = 1;
}

// Each number becomes the sum of those up to it.
fn sum_up(counts: &mut [u64])
    requires { below (value_at counts.old) (length counts.old) < 2 ^ 64 }
    ensures { counts.new ≡ values (sum_to (value_at counts.old)) (length counts.old) }
{
    let mut sum: u64 = 0;
    for x in counts.iter_mut() {
        sum += *x;
        *x = sum;
    }
}

// Each number combined with the one b places before it, from the last to the first.
fn combine_shifted<F: Fn(u64, u64) -> u64>(counts: &mut [u64], b: usize, combine: F)
    requires { (l : ℕ) → b ≤ l → l < length counts.old → F.pre combine (value_at counts.old l) (value_at counts.old (l - b)) }
    ensures first { (l : ℕ) → l < b → l < length counts.old → value_at counts.new l ≡ value_at counts.old l }
    ensures others { (l : ℕ) → b ≤ l → l < length counts.old
        → F.post combine (value_at counts.old l) (value_at counts.old (l - b)) (value_at counts.new l) }
{
    for l in (b..counts.len()).rev() {
        counts[l] = combine(counts[l], counts[l - b]);
    }
}

// The running sum: each number and the c before it.
fn run(counts: &mut [u64], c: usize)
    requires c_bound { c ≤ 255 }
    requires counts_bound { below (value_at counts.old) (length counts.old) < 2 ^ 64 }
    ensures { counts.new ≡ values (running c (value_at counts.old)) (length counts.old) }
{
    sum_up(counts);
    combine_shifted(counts, c + 1, |own, back| own - back);
}

// The factor of a level with c greater sizes.
fn multiply(kind: Kind, c: usize, counts: &mut [u64])
    requires kind_bound { (fewest kind ≤ c) × (c ≤ 64) }
    requires counts_bound { below (value_at counts.old) (length counts.old) < 2 ^ 64 }
    requires fit { Fit (factor kind c (value_at counts.old)) (length counts.old) }
    ensures { counts.new ≡ values (factor kind c (value_at counts.old)) (length counts.old) }
{
    match kind {
        Kind::A => run(counts, c),
        Kind::B => run(counts, 2 * c + 1),
        Kind::D => {
            run(counts, c);
            combine_shifted(counts, c, |own, back| own + back);
        }
    }
}

// The numbers of windows of each length, one level after another from the last; those of fewer levels end earlier.
fn count(group: Group, counts: &mut [u64])
    requires tabled { group.rank ≤ greatest_tabled group.kind }
    requires counts_len { length counts.old ≡ greatest_length group.kind group.rank + 1 }
    ensures { counts.new ≡ distribution group.kind group.rank }
{
    set_one(group.kind, counts);
    let mut d: usize = 1;
    for c in fewest_of(group.kind)..group.lanes() {
        d += top_of(group.kind, c);
        multiply(group.kind, c, &mut counts[..d]);
    }
}

// The same to the front of `counts`.
pub(crate) fn write_counts(group: Group, counts: &mut [u64])
    requires tabled { group.rank ≤ greatest_tabled group.kind }
    requires rank_in_bounds { greatest_length group.kind group.rank + 1 ≤ length counts.old }
    ensures { counts.new ≡ front (distribution group.kind group.rank) counts.old }
{
    let size = greatest_length(group) + 1;
    count(group, &mut counts[..size]);
}
