// Steps on a window, in place: each changes one or two entries, so a word costs constant work a letter. That the array is a
// window stays a clause: a type that lends the array would have to hold between two stores, when it is none.
ghost use Rattle.std.specs.Prelude.{◌≡◌, ◌+◌, ◌<◌, ◌≤◌, nat_abs, pos, length, get_or};
ghost use Rattle.coxeter.specs.Kinds.{lanes};
ghost use Rattle.coxeter.specs.Windows.{from, swap, negate_first, swap_negate, act, window_from, identity, window};
ghost use Rattle.coxeter.specs.Checks.{WindowOf};

use crate::entries::negated;
use coxeter::{Group, Kind, Word};

// w[p] and w[p + 1] swapped, where w[p] is a.
fn swap_at(w: &mut [i8], p: usize, a: i8)
    requires p_in_bounds { p + 1 < length w.old }
    requires a_value { a ≡ get_or w.old p (pos 0) }
    ensures { w.new ≡ from p swap w.old }
{
    let b = w[p + 1];
    w[p] = b;
    w[p + 1] = a;
}

// The sign of w[p], which is a, changed.
fn negate_at(w: &mut [i8], p: usize, a: i8)
    requires p_in_bounds { (p < length w.old) × (nat_abs (get_or w.old p (pos 0)) < 128) }
    requires a_value { a ≡ get_or w.old p (pos 0) }
    ensures { w.new ≡ from p negate_first w.old }
{
    w[p] = negated(a);
}

// w[p] and w[p + 1], which is b, swapped, both with their signs changed.
fn swap_negate_at(w: &mut [i8], p: usize, b: i8)
    requires p_in_bounds { p + 1 < length w.old }
    requires pos_bound { nat_abs (get_or w.old p (pos 0)) < 128 }
    requires pos_bound_2 { nat_abs (get_or w.old (p + 1) (pos 0)) < 128 }
    requires b_value { b ≡ get_or w.old (p + 1) (pos 0) }
    ensures { w.new ≡ from p swap_negate w.old }
{
    let a = w[p];
    let c = negated(a);
    let d = negated(b);
    w[p] = d;
    w[p + 1] = c;
}

// K7, K8, K9: one step. Below the number of entries a step swaps, in every kind. Any other is step n of B or D:
// A has an entry more than steps. The entry at s - 1, which each of them needs, is read before it is known which
// step it is. Read beside its neighbour, the compiler would swap both with one 16-bit rotate, and the next load would
// stall.
fn act_on(group: Group, s: usize, w: &mut [i8])
    requires le_s { (1 ≤ s) × (s ≤ group.rank) }
    requires window_of { WindowOf group.kind group.rank w.old }
    ensures { w.new ≡ act group.kind group.rank s w.old }
{
    let n = group.rank as usize;
    let a = w[s - 1];
    if s < w.len() {
        swap_at(w, s - 1, a);
        return;
    }
    match group.kind {
        Kind::B => negate_at(w, n - 1, a),
        Kind::A | Kind::D => swap_negate_at(w, n - 2, a),
    }
}

// The steps of a word from the left.
pub(crate) fn apply(word: Word, w: &mut [i8])
    requires { WindowOf word.group.kind word.group.rank w.old }
    ensures { w.new ≡ window_from word.entry.group.kind word.entry.group.rank w.old word.entry.letters.now }
{
    for s in word.letters {
        act_on(word.group, *s as usize, w);
    }
}

// 1, 2, 3, .., counted in a byte: with `enumerate` each entry would be narrowed from 64 bits.
fn set_identity(w: &mut [i8])
    requires { length w.old ≤ 127 }
    ensures { w.new ≡ identity (length w.old) }
{
    let mut next: u8 = 1;
    for e in w.iter_mut() {
        *e = next as i8;
        next += 1;
    }
}

// The window of a word.
pub(crate) fn show(word: Word, w: &mut [i8])
    requires { length w.old ≡ lanes word.group.kind word.group.rank }
    ensures { w.new ≡ window word.entry.group.kind word.entry.group.rank word.entry.letters.now }
{
    set_identity(w);
    apply(word, w);
}
