// The entries of a window, made as signed bytes, from others or from a position and a sign.
ghost use Rattle.std.specs.Prelude.{◌≡◌, ◌<◌, nat_abs, neg_ℤ};
ghost use Rattle.coxeter.specs.Windows.{signed};

use refusals::is_negative;

pub(crate) fn negated(e: i8) -> i8
    requires { nat_abs e < 128 }
    ensures { result ≡ neg_ℤ e }
{
    -e
}

// The position p with the sign of the entry e.
pub(crate) fn with_sign(e: i8, p: usize) -> i8
    requires { p < 128 }
    ensures { result ≡ signed e p }
{
    let x = p as i8;
    if is_negative(e) { -x } else { x }
}
