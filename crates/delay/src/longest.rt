// The longest window and its normal form.
ghost use Rattle.std.specs.Prelude.{◌≡◌, ◌<◌, ◌≤◌, pos, length, get_or, take};
ghost use Rattle.coxeter.specs.Kinds.{lanes};
ghost use Rattle.coxeter.specs.Length.{greatest_length};
ghost use Rattle.coxeter.specs.NormalForm.{normal_form};
ghost use Rattle.coxeter.specs.Calls.{front};
ghost use Rattle.distribution.specs.Longest.{longest};

use coxeter::{Group, Kind, Window};

// The entry at position i, from 0, of the longest window, which has m entries: m, m - 1, .., 1 in kind A, and else
// -1, -2, .., -m, but in kind D the last one is positive where the rank is odd.
fn longest_entry(group: Group, i: usize) -> i8
    requires { i < lanes group.kind group.rank }
    ensures { result ≡ get_or (longest group.kind group.rank) i (pos 0) }
{
    let x = (i + 1) as i8;
    match group.kind {
        Kind::A => (group.lanes() - i) as i8,
        Kind::B => -x,
        Kind::D => {
            let n = group.rank as usize;
            let even = n % 2 == 0;
            if even {
                return -x;
            }
            if i + 1 == n {
                return x;
            }
            -x
        }
    }
}

fn set_longest(group: Group, w: &mut [i8])
    requires { length w.old ≡ lanes group.kind group.rank }
    ensures { w.new ≡ longest group.kind group.rank }
{
    for (i, x) in w.iter_mut().enumerate() {
        *x = longest_entry(group, i);
    }
}

// The longest window, to the front of `entries`.
pub(crate) fn write_longest(group: Group, entries: &mut [i8])
    requires { lanes group.kind group.rank ≤ length entries.old }
    ensures { entries.new ≡ front (longest group.kind group.rank) entries.old }
{
    set_longest(group, &mut entries[..group.lanes()]);
}

// The normal form of the longest window, which is at the front of `entries`, to the front of `letters`.
pub(crate) fn write_form(group: Group, entries: &[i8], letters: &mut [u8])
    requires m_in_bounds { lanes group.kind group.rank ≤ length entries.now }
    requires entries_value { take (lanes group.kind group.rank) entries.now ≡ longest group.kind group.rank }
    requires rank_in_bounds { greatest_length group.kind group.rank ≤ length letters.old }
    ensures { letters.new ≡ front (normal_form group.kind group.rank (longest group.kind group.rank)) letters.old }
{
    let longest = Window {
        group,
        entries: &entries[..group.lanes()],
    };
    let _ = window::write_form(longest, letters);
}
