// The lines of the listing, from their fields: each at the front of a buffer with room for it. Returns how many
// bytes it has.
#![tactic(auto, using(crate::proofs::lines::Lines::line_lengths))]

ghost use Rattle.std.specs.Prelude.{◌≡◌, [], ◌∷◌, ◌++◌, ◌+◌, ◌≤◌, length};
ghost use Rattle.coxeter.specs.Refusals as refusals;
ghost use Rattle.coxeter.proofs.Lists.{Stored};
ghost use Rattle.listing_text.specs.Text.{decimal, kind_letter, head, tail, preset_line, refused_line};

use crate::numbers::{put_bytes, put_decimal, put_entries, put_letters, put_spaced};
use window::{Group, Kind, Refusal};

// K2: the letter of a kind. Not by `Display`: what it writes is known only of a `String`, which needs the heap.
#[tactic(auto, unfolding(listing_text::specs::Text::kind_letter))]
fn kind_letter(kind: Kind) -> u8
    ensures { result ≡ kind_letter kind }
{
    match kind {
        Kind::A => b'A',
        Kind::B => b'B',
        Kind::D => b'D',
    }
}

// A label, a number and the line feed.
pub(crate) fn put_labelled(out: &mut [u8], at: usize, label: &[u8], x: usize) -> usize
    requires { at + length (label.now ++ decimal x ++ (10 ∷ [])) ≤ length out.old }
    ensures { Stored out.old at (label.now ++ decimal x ++ (10 ∷ [])) out.new result }
{
    let a = put_bytes(out, at, label);
    let b = put_decimal(out, a, x);
    put_bytes(out, b, b"\n")
}

// `0 refused 8`
pub(crate) fn put_refused(number: usize, refusal: Refusal, out: &mut [u8]) -> usize
    requires { length (refused_line number (refusals.number refusal)) ≤ length out.old }
    ensures { Stored out.old 0 (refused_line number (refusals.number refusal)) out.new result }
{
    let a = put_decimal(out, 0, number);
    put_labelled(out, a, b" refused ", refusal.number() as usize)
}

// `0 B 2 4:`
fn put_head(number: usize, group: Group, size: usize, out: &mut [u8]) -> usize
    requires { length (head number group.kind group.rank size) ≤ length out.old }
    ensures { Stored out.old 0 (head number group.kind group.rank size) out.new result }
{
    let a = put_decimal(out, 0, number);
    let b = put_bytes(out, a, &[b' ', kind_letter(group.kind)]);
    let c = put_spaced(out, b, group.rank as usize);
    let d = put_spaced(out, c, size);
    put_bytes(out, d, b":")
}

// ` 2 1 2 1 | -1 -2`, with the line feed.
fn put_tail(word: &[u8], window: &[i8], out: &mut [u8], at: usize) -> usize
    requires { at + length (tail word.now window.now) ≤ length out.old }
    ensures { Stored out.old at (tail word.now window.now) out.new result }
{
    let a = put_letters(out, at, word);
    let b = put_bytes(out, a, b" |");
    let c = put_entries(out, b, window);
    put_bytes(out, c, b"\n")
}

// `0 B 2 4: 2 1 2 1 | -1 -2`
pub(crate) fn put_line(
    number: usize,
    group: Group,
    word: &[u8],
    window: &[i8],
    out: &mut [u8],
) -> usize
    requires { length (preset_line number group.kind group.rank word.now window.now) ≤ length out.old }
    ensures { Stored out.old 0 (preset_line number group.kind group.rank word.now window.now) out.new result }
{
    let a = put_head(number, group, word.len(), out);
    put_tail(word, window, out, a)
}
