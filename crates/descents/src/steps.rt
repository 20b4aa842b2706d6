// Steps that make a window shorter (descents), taken in place: one comparison of two entries, and where they are
// crossed one or two stores. That the array is a window stays a clause, as in the crate `window`.
ghost use Rattle.std.specs.Prelude.{◌≡◌, ◌+◌, ◌<◌, ◌≤◌, nat_abs, pos, neg_ℤ, length, get_or};
ghost use Rattle.coxeter.specs.Kinds.{pick};
ghost use Rattle.coxeter.specs.Windows.{from, swap, negate_first, swap_negate, act};
ghost use Rattle.coxeter.specs.Length.{later, negative};
ghost use Rattle.coxeter.specs.Checks.{WindowOf};
ghost use Rattle.shortest_words.specs.Descents.{is_descent};

use coxeter::{Group, Kind};
use refusals::is_negative;

// Whether x stands later than y in the order 1, 2, .., m, -m, .., -2, -1: of one sign, where y is below x, and else
// where y is not below x.
fn is_later(x: i8, y: i8) -> bool
    ensures { result ≡ later x y }
{
    (y < x) ^ is_negative(x) ^ is_negative(y)
}

// If w[p] stands later than w[p + 1], the two are swapped. Returns whether they were.
fn take_swap_descent(w: &mut [i8], p: usize) -> bool
    requires { p + 1 < length w.old }
    ensures { (result ≡ later (get_or w.old p (pos 0)) (get_or w.old (p + 1) (pos 0)))
        × (w.new ≡ pick result (from p swap w.old) w.old) }
{
    let a = w[p];
    let b = w[p + 1];
    if is_later(a, b) {
        w[p] = b;
        w[p + 1] = a;
        return true;
    }
    false
}

// If w[p] is negative, its sign is changed. Returns whether it was.
fn take_negate_descent(w: &mut [i8], p: usize) -> bool
    requires { (p < length w.old) × (nat_abs (get_or w.old p (pos 0)) < 128) }
    ensures { (result ≡ negative (get_or w.old p (pos 0)))
        × (w.new ≡ pick result (from p negate_first w.old) w.old) }
{
    let a = w[p];
    if is_negative(a) {
        w[p] = -a;
        return true;
    }
    false
}

// If w[p] stands later than minus w[p + 1], the two are swapped and both change sign. Returns whether they were.
fn take_swap_negate_descent(w: &mut [i8], p: usize) -> bool
    requires p_in_bounds { p + 1 < length w.old }
    requires pos_bound { nat_abs (get_or w.old p (pos 0)) < 128 }
    requires pos_bound_2 { nat_abs (get_or w.old (p + 1) (pos 0)) < 128 }
    ensures { (result ≡ later (get_or w.old p (pos 0)) (neg_ℤ (get_or w.old (p + 1) (pos 0))))
        × (w.new ≡ pick result (from p swap_negate w.old) w.old) }
{
    let a = w[p];
    let b = w[p + 1];
    let c = -b;
    if is_later(a, c) {
        w[p] = c;
        w[p + 1] = -a;
        return true;
    }
    false
}

// Step s, taken where it makes the window shorter. Returns whether it does. Below the number of entries a step
// swaps, in every kind; any other is step n of B or D.
pub(crate) fn take_descent(group: Group, s: usize, w: &mut [i8]) -> bool
    requires le_s { (1 ≤ s) × (s ≤ group.rank) }
    requires window_of { WindowOf group.kind group.rank w.old }
    ensures { (result ≡ is_descent group.kind group.rank s w.old)
        × (w.new ≡ pick result (act group.kind group.rank s w.old) w.old) }
{
    if s < w.len() {
        return take_swap_descent(w, s - 1);
    }
    let n = group.rank as usize;
    match group.kind {
        Kind::B => take_negate_descent(w, n - 1),
        Kind::A | Kind::D => take_swap_negate_descent(w, n - 2),
    }
}
