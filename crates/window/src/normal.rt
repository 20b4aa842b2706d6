// The normal form of a window (N10 of the specification), peeled off level by level: the index of the block
// of level i is read off the place of i among the positions left, the rest is a normal form of the levels above, and
// the block is written behind it.
ghost use Rattle.std.specs.Prelude.{◌≡◌, ◌++◌, ℕ, ◌+◌, ◌-◌, ◌*◌, ◌^◌, ◌<◌, ◌≤◌, length, get_or};
ghost use Rattle.std.proofs.lemmas.List.Edits.{sets};
ghost use Rattle.coxeter.specs.declared.Kind.TheVariants.{A};
ghost use Rattle.coxeter.specs.Calls.{front};
ghost use Rattle.coxeter.specs.NormalForm.{rise, fall, block, normal_form};
ghost use Rattle.coxeter.proofs.Acceptance.{Ranked};
ghost use Rattle.coxeter.proofs.PeelingByPlaces.{place_of, PlacesOf, Place, last_level, without_position, sign_changed};
ghost use Rattle.coxeter.proofs.PeelingByPlaces.{index_at, left_at, odd_at, peeled_word};

use crate::length::larger_behind;
use coxeter::{Kind, Window};
use refusals::{is_negative, size};

// Of which windows a normal form is written: their kind, and how many entries they have. In B and D that is the rank, and in
// A one more.
#[derive(Clone, Copy)]
struct Shape {
    kind: Kind,
    entries: usize,
    ghost ranked: { Ranked kind entries },
}

// Writes the letters from a up to b from the place `at` on and returns the place after them. r is counted by hand: as
// `iter_mut().enumerate()` short runs took longer. A struct of buffer and place would need a clause more in each function
// here, that the buffer is the same one.
fn write_up(out: &mut [u8], at: usize, a: usize, b: usize) -> usize
    requires { (b < 256) × (at + length (rise a b) ≤ length out.old) }
    ensures { (result ≡ at + length (rise a b)) × (out.new ≡ sets out.old at (rise a b)) }
{
    let mut r = at;
    for x in a..b + 1 {
        out[r] = x as u8;
        r += 1;
    }
    r
}

// Writes the letters from b down to a from the place `at` on and returns the place after them. The letters are counted
// in a byte, so that many are made at a time.
fn write_down(out: &mut [u8], at: usize, b: usize, a: usize) -> usize
    requires { (b < 255) × (a < 256) × (at + length (fall b a) ≤ length out.old) }
    ensures { (result ≡ at + length (fall b a)) × (out.new ≡ sets out.old at (fall b a)) }
{
    let next = at + (b + 1).saturating_sub(a);
    let mut above = (b + 1) as u8;
    for letter in out[at..next].iter_mut() {
        above -= 1;
        *letter = above;
    }
    next
}

// Where a block turns: its way up ends with `top`, and its way down starts with `high`.
#[derive(Clone, Copy)]
struct Turn {
    top: usize,
    high: usize,
}

// The turn of the blocks of B and D. In D the way down starts with n.
fn turn_of(shape: Shape) -> Turn
    requires { shape.kind ≡ A → ⊥ }
    ensures { (result.top < 256) × (result.high < 255)
        × ((i j : ℕ) → shape.entries ≤ j
        → block shape.kind shape.entries i j ≡ rise i result.top ++ fall result.high (2 * shape.entries - j)) }
{
    let n = shape.entries;
    match shape.kind {
        Kind::B => Turn {
            top: n,
            high: n - 1,
        },
        Kind::A | Kind::D => Turn {
            top: n - 2,
            high: n,
        },
    }
}

// A block of B or D that turns: both its ways.
fn write_turned(shape: Shape, i: usize, j: usize, out: &mut [u8], at: usize) -> usize
    requires turns { (shape.kind ≡ A → ⊥) × (shape.entries ≤ j) × (j ≤ 2 * shape.entries) }
    requires j_in_bounds { at + length (block shape.kind shape.entries i j) ≤ length out.old }
    ensures { (result ≡ at + length (block shape.kind shape.entries i j))
        × (out.new ≡ sets out.old at (block shape.kind shape.entries i j)) }
{
    let turn = turn_of(shape);
    let next = write_up(out, at, i, turn.top);
    write_down(out, next, turn.high, 2 * shape.entries - j)
}

// N4 to N8: writes the block [i,j] from the place `at` on and returns the place after it. Before the turn the block goes
// up only, and in A every j is before it.
fn write_block(shape: Shape, i: usize, j: usize, out: &mut [u8], at: usize) -> usize
    requires j_within { (j ≤ 2 * shape.entries) × (shape.kind ≡ A → j < shape.entries) }
    requires j_in_bounds { at + length (block shape.kind shape.entries i j) ≤ length out.old }
    ensures { (result ≡ at + length (block shape.kind shape.entries i j))
        × (out.new ≡ sets out.old at (block shape.kind shape.entries i j)) }
{
    if j < shape.entries {
        return write_up(out, at, i, j);
    }
    write_turned(shape, i, j, out, at)
}

// The place of an entry: its position p, and 128 more if it is negative, so that one load gives both, from 64 bytes.
fn place_of(e: i8, p: u8) -> u8
    requires { p < 128 }
    ensures { result ≡ place_of e p }
{
    if is_negative(e) {
        return p + 128;
    }
    p
}

// The places of the entries of a window, each stored at the entry's size.
fn set_places(window: Window, places: &mut [u8; 64])
    ensures { PlacesOf window.entry.entries.now places.new }
{
    for (i, e) in window.entries.iter().enumerate() {
        let s = (size(*e) as usize) - 1;
        places[s] = place_of(*e, (i + 1) as u8);
    }
}

// One level: the index of its block, the set of the positions left, and whether an odd number of negative entries were
// taken out.
#[derive(Clone, Copy)]
struct Level {
    index: usize,
    left: u64,
    odd: bool,
}

// A set of positions without position p, which is bit p - 1.
fn without(left: u64, p: u8) -> u64
    requires { (1 ≤ p) × (p ≤ 64) }
    ensures { result ≡ without_position p left }
{
    left ^ (1u64 << (p - 1))
}

// Whether the entry of a level has changed its sign: in D each negative entry that is taken out changes the sign of the
// last entry left, which has none behind it.
fn has_changed_sign(kind: Kind, behind: usize, odd: bool) -> bool
    ensures { result ≡ sign_changed kind behind odd }
{
    match kind {
        Kind::A | Kind::B => false,
        Kind::D => odd & (behind == 0),
    }
}

// N10: the level whose entry stands at `place`, of m entries. The lower entries stand still in front, so the entry is at
// position m - behind of what is left, and its index is one less, or m + behind if it is negative there.
// `behind` counts the positions left from p + 1 on, which are those from p on of the set that is moved down by one.
fn level_of(shape: Shape, place: u8, left: u64, odd: bool) -> Level
    requires { (left < 2 ^ shape.entries) × Place shape.kind shape.entries place }
    ensures { (result.index ≡ index_at shape.kind shape.entries place left odd) × (result.left ≡ left_at place left)
        × (result.odd ≡ odd_at place odd) }
{
    let kind = shape.kind;
    let m = shape.entries;
    if 128 <= place {
        let p = place - 128;
        let rest = without(left, p);
        let behind = larger_behind(m, left >> 1, p);
        if has_changed_sign(kind, behind, odd) {
            return Level {
                index: m - 1,
                left: rest,
                odd: false,
            };
        }
        return Level {
            index: m + behind,
            left: rest,
            odd: !odd,
        };
    }
    let rest = without(left, place);
    let behind = larger_behind(m, left >> 1, place);
    if has_changed_sign(kind, behind, odd) {
        return Level {
            index: m,
            left: rest,
            odd: true,
        };
    }
    Level {
        index: m - 1 - behind,
        left: rest,
        odd: odd,
    }
}

// The last level.
fn last_level(shape: Shape) -> usize
    ensures { result ≡ last_level shape.kind shape.entries }
{
    match shape.kind {
        Kind::B => shape.entries,
        Kind::A | Kind::D => shape.entries - 1,
    }
}

// The levels from i on, written to the front of `out`: the block of level i is peeled off, the rest is a normal form
// of the levels above, and the block is written behind it. Returns how many letters there are. `left` is the set of
// the positions left, and `odd` says whether an odd number of negative entries were taken out. The number of levels left
// falls at each call.
fn peel(shape: Shape, i: usize, places: &[u8; 64], left: u64, odd: bool, out: &mut [u8]) -> usize
    requires level_within { (1 ≤ i) × (i ≤ last_level shape.kind shape.entries) × (left < 2 ^ shape.entries) }
    requires by_index { (s : ℕ) → s < shape.entries → Place shape.kind shape.entries (get_or places.now s 0) }
    requires odd_in_bounds { length (peeled_word shape.kind shape.entries places.now i left odd) ≤ length out.old }
    ensures { (result ≡ length (peeled_word shape.kind shape.entries places.now i left odd))
        × (out.new ≡ sets out.old 0 (peeled_word shape.kind shape.entries places.now i left odd)) }
{
    let level = level_of(shape, places[i - 1], left, odd);
    let mut at = 0;
    if i < last_level(shape) {
        at = peel(shape, i + 1, places, level.left, level.odd, out);
    }
    write_block(shape, i, level.index, out, at)
}

// The set of all positions of m entries.
fn all_positions(m: usize) -> u64
    requires { (1 ≤ m) × (m ≤ 64) }
    ensures { result ≡ 2 ^ m - 1 }
{
    18446744073709551615u64 >> (64 - m)
}

// Writes the normal form of a window to the front of `out` and returns its length.
pub(crate) fn write_normal_form(window: Window, out: &mut [u8]) -> usize
    requires { length (normal_form window.group.kind window.group.rank window.entries.now) ≤ length out.old }
    ensures { (result ≡ length (normal_form window.entry.group.kind window.entry.group.rank window.entry.entries.now))
        × (out.new ≡ front (normal_form window.entry.group.kind window.entry.group.rank window.entry.entries.now) out.old) }
{
    let shape = Shape {
        kind: window.group.kind,
        entries: window.entries.len(),
    };
    let mut places = [0u8; 64];
    set_places(window, &mut places);
    peel(shape, 1, &places, all_positions(shape.entries), false, out)
}
