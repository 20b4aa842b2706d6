// Products and inverses of windows.
ghost use Rattle.std.specs.Prelude.{◌≡◌, false, ◌≤◌, ◌<◌, nat_abs, length};
ghost use Rattle.coxeter.specs.Windows.{at, product, inverse};
ghost use Rattle.coxeter.specs.Checks.{negative_in_A};
ghost use Rattle.coxeter.specs.Calls.{front};

use crate::Windows;
use crate::entries::{negated, with_sign};
use coxeter::{Kind, Window};
use refusals::{is_negative, size};

// u(e). In kind A no entry is negative.
fn image(kind: Kind, u: &[i8], e: i8) -> i8
    requires e_value { negative_in_A kind e ≡ false }
    requires bound { 1 ≤ nat_abs e }
    requires e_in_bounds { nat_abs e ≤ length u.now }
    requires e_bound { nat_abs (at u.now e) < 128 }
    ensures { result ≡ at u.now e }
{
    match kind {
        Kind::A => u[(e as usize) - 1],
        Kind::B | Kind::D => {
            let s = size(e);
            let p = (s as usize) - 1;
            let x = u[p];
            if is_negative(e) { negated(x) } else { x }
        }
    }
}

// The product of two windows, written to the front of `out`.
pub(crate) fn product_into(pair: Windows, out: &mut [i8])
    requires { length pair.second.now ≤ length out.old }
    ensures { out.new ≡ front (product pair.entry.first.now pair.entry.second.now) out.old }
{
    for (i, e) in pair.second.iter().enumerate() {
        out[i] = image(pair.group.kind, pair.first, *e);
    }
}

// The inverse of a window in one pass, to the front of `out`: each entry's position is stored at the entry's size, with
// its sign.
pub(crate) fn inverse_into(window: Window, out: &mut [i8])
    requires { length window.entries.now ≤ length out.old }
    ensures { out.new ≡ front (inverse window.entry.entries.now) out.old }
{
    for (i, e) in window.entries.iter().enumerate() {
        let p = (size(*e) as usize) - 1;
        out[p] = with_sign(*e, i + 1);
    }
}
