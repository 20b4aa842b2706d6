// The checks on a window (C9 to C11 of the specification), after those on its kind and rank.
ghost use Rattle.std.specs.Prelude.{◌≡◌, false, ℕ, ◌<◌, ◌≤◌, length, get_or, IfOk};
ghost use Rattle.coxeter.specs.Kinds.{kind_of};
ghost use Rattle.coxeter.specs.Refusals.{refusal_of};
ghost use Rattle.coxeter.specs.Checks.{◌then◌, rank_refusal, window_refusal, wrong_entry, odd_negatives, negative_in_A};
ghost use Rattle.coxeter.specs.Parity.{flag_after};

use crate::checks::group_of;
use crate::entries::{is_negative, size};
use coxeter::{Group, Kind, Refusal, Window};

fn negative_in_a(kind: Kind, e: i8) -> bool
    ensures { result ≡ negative_in_A kind e }
{
    match kind {
        Kind::A => is_negative(e),
        Kind::B | Kind::D => false,
    }
}

// C10, from the last entry to the first, with the sizes of the entries behind marked: constant work an entry. The
// sign is looked at first: in kind A an entry that passes is not negative, and its size is the entry itself.
fn has_wrong_entry(kind: Kind, m: usize, w: &[i8]) -> bool
    requires { m ≤ 64 }
    ensures { result ≡ wrong_entry kind m w.now }
{
    // Place p stands for the size p + 1.
    let mut marks = [false; 64];
    for i in (0..w.len()).rev() {
        let e = w[i];
        if negative_in_a(kind, e) {
            return true;
        }
        let s = size(e) as usize;
        if s == 0 {
            return true;
        }
        if m < s {
            return true;
        }
        let p = s - 1;
        if marks[p] {
            return true;
        }
        marks[p] = true;
    }
    false
}

// CP1, CP2: a flag flipped at each negative entry, of any entries, such as a part of a window. There is no branch, so
// that many entries are looked at together.
pub fn odd_negatives(w: &[i8]) -> bool
    ensures { result ≡ flag_after w.now }
{
    let mut flag = false;
    for e in w {
        flag = flag ^ is_negative(*e);
    }
    flag
}

fn has_odd_negatives(kind: Kind, w: &[i8]) -> bool
    ensures { result ≡ odd_negatives kind w.now }
{
    match kind {
        Kind::A | Kind::B => false,
        Kind::D => odd_negatives(w),
    }
}

// C9, C10, C11: of a window of a group.
fn check_window(group: Group, w: &[i8]) -> Result<(), Refusal>
    ensures { refusal_of result ≡ window_refusal group.kind group.rank w.now }
{
    let m = group.lanes();
    if w.len() != m {
        return Err(Refusal::WindowLength);
    }
    if has_wrong_entry(group.kind, m, w) {
        return Err(Refusal::WrongEntry);
    }
    if has_odd_negatives(group.kind, w) {
        return Err(Refusal::OddNegatives);
    }
    Ok(())
}

// I33: the window of a kind and a rank, after checks 5, 6 and 9 to 11.
pub fn accepted_window<'a>(kind: u8, rank: u8, entries: &'a [i8]) -> Result<Window<'a>, Refusal>
    ensures refusal { refusal_of result ≡ (rank_refusal kind rank then window_refusal (kind_of kind) rank entries.now) }
    ensures window { IfOk result (λ w. (w.group.kind ≡ kind_of kind) × (w.group.rank ≡ rank) × (w.entries ≡ entries.entry)) }
{
    let group = group_of(kind, rank)?;
    check_window(group, entries)?;
    Ok(Window { group, entries })
}

// I33, CO4: two windows of one kind and rank, after checks 5, 6 and 9 to 11: kind and rank once, then the first window,
// then the second.
pub fn accepted_windows<'a, 'b>(
    kind: u8,
    rank: u8,
    u: &'a [i8],
    v: &'b [i8],
) -> Result<(Window<'a>, Window<'b>), Refusal>
    ensures refusal { refusal_of result ≡ (rank_refusal kind rank then window_refusal (kind_of kind) rank u.now
        then window_refusal (kind_of kind) rank v.now) }
    ensures windows { IfOk result (λ p. ((p.0.group.kind ≡ kind_of kind) × (p.0.group.rank ≡ rank) × (p.0.entries ≡ u.entry))
        × ((p.1.group.kind ≡ kind_of kind) × (p.1.group.rank ≡ rank) × (p.1.entries ≡ v.entry))) }
{
    let first = accepted_window(kind, rank, u)?;
    check_window(first.group, v)?;
    let second = Window {
        group: first.group,
        entries: v,
    };
    Ok((first, second))
}
