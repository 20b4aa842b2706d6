// Allowed steps that make a window shorter, taken until none does. A step changes nothing for the steps below its
// neighbours, so the search goes back to the lowest neighbour of a step taken: at most two comparisons for each of
// them, and three in kind D for step n, beside one for each step.
ghost use Rattle.std.specs.Prelude.{◌≡◌, ◌&&◌, ◌-◌, ◌≤◌};
ghost use Rattle.coxeter.specs.Kinds.{pick};
ghost use Rattle.coxeter.specs.Windows.{act};
ghost use Rattle.coxeter.specs.Checks.{WindowOf};
ghost use Rattle.shortest_words.specs.Descents.{is_descent};
ghost use Rattle.shortest_words.specs.Allowed.{allows};
ghost use Rattle.shortest_words.proofs.Stripping.{Strips};
ghost use Rattle.shortest_words.proofs.FarSteps.{Far};

use crate::allowed::is_allowed;
use crate::steps::take_descent;
use coxeter::{Group, Kind};

// The lowest neighbour of step s; step 1, which has no lower one, for itself.
fn back(group: Group, s: usize) -> usize
    requires { (1 ≤ s) × (s ≤ group.rank) }
    ensures { (1 ≤ result) × (result ≤ s) × (2 ≤ result → Far group.kind group.rank (result - 1) s) }
{
    if s == 1 {
        return 1;
    }
    if s < group.rank as usize {
        return s - 1;
    }
    match group.kind {
        Kind::A | Kind::B => s - 1,
        Kind::D => s - 2,
    }
}

// Step s, taken where it is allowed and makes the window shorter. Returns whether it was.
fn take_allowed_descent(group: Group, allowed: u64, s: usize, w: &mut [i8]) -> bool
    requires le_s { (1 ≤ s) × (s ≤ group.rank) }
    requires window_of { WindowOf group.kind group.rank w.old }
    ensures { (result ≡ (allows allowed s && is_descent group.kind group.rank s w.old))
        × (w.new ≡ pick result (act group.kind group.rank s w.old) w.old) }
{
    if is_allowed(allowed, s) {
        return take_descent(group, s, w);
    }
    false
}

// The window with allowed steps taken until none makes it shorter.
pub(crate) fn strip(group: Group, allowed: u64, w: &mut [i8])
    requires { WindowOf group.kind group.rank w.old }
    ensures { Strips (allows allowed) group.kind group.rank w.old w.new }
{
    let n = group.rank as usize;
    let mut s = 1;
    // A `while`, since s also goes back, which the counter of a `for` cannot.
    while s <= n {
        if take_allowed_descent(group, allowed, s, w) {
            s = back(group, s);
        } else {
            s += 1;
        }
    }
}
