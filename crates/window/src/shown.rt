// Windows made in a work array of 64 entries, which the caller lends; each is returned as a `Window` of it. The array is
// not returned by value: a copy in blocks of sixteen bytes would wait for the single bytes just stored. What is made of
// accepted words and windows is not checked: it passes because they do.
ghost use Rattle.std.specs.Prelude.{◌≡◌};
ghost use Rattle.coxeter.specs.Windows.{window, product, inverse};

use crate::Windows;
use crate::action::{apply, show};
use crate::product::{inverse_into, product_into};
use coxeter::{Window, Word};

// What a word shows.
pub(crate) fn shown<'a>(word: Word, work: &'a mut [i8; 64]) -> Window<'a>
    ensures group { (result.group.kind ≡ word.entry.group.kind) × (result.group.rank ≡ word.entry.group.rank) }
    ensures entries { result.entries.now ≡ window word.entry.group.kind word.entry.group.rank word.entry.letters.now }
{
    let m = word.group.lanes();
    show(word, &mut work[..m]);
    Window {
        group: word.group,
        entries: &work[..m],
    }
}

// The product of what two words of one group show.
pub(crate) fn shown_product<'a>(first: Word, second: Word, work: &'a mut [i8; 64]) -> Window<'a>
    requires { (second.group.kind ≡ first.group.kind) × (second.group.rank ≡ first.group.rank) }
    ensures group { (result.group.kind ≡ first.entry.group.kind) × (result.group.rank ≡ first.entry.group.rank) }
    ensures entries { result.entries.now ≡ product (window first.entry.group.kind first.entry.group.rank first.entry.letters.now)
        (window first.entry.group.kind first.entry.group.rank second.entry.letters.now) }
{
    let m = first.group.lanes();
    show(first, &mut work[..m]);
    apply(second, &mut work[..m]);
    Window {
        group: first.group,
        entries: &work[..m],
    }
}

// The product of two windows.
pub(crate) fn product_of<'a>(pair: Windows, work: &'a mut [i8; 64]) -> Window<'a>
    ensures group { (result.group.kind ≡ pair.entry.group.kind) × (result.group.rank ≡ pair.entry.group.rank) }
    ensures entries { result.entries.now ≡ product pair.entry.first.now pair.entry.second.now }
{
    let m = pair.second.len();
    product_into(pair, &mut work[..m]);
    Window {
        group: pair.group,
        entries: &work[..m],
    }
}

// The inverse of a window.
pub(crate) fn inverse_of<'a>(window: Window, work: &'a mut [i8; 64]) -> Window<'a>
    ensures group { (result.group.kind ≡ window.entry.group.kind) × (result.group.rank ≡ window.entry.group.rank) }
    ensures entries { result.entries.now ≡ inverse window.entry.entries.now }
{
    let m = window.entries.len();
    inverse_into(window, &mut work[..m]);
    Window {
        group: window.group,
        entries: &work[..m],
    }
}

// The window that leads from the first to the second.
pub(crate) fn between<'a>(pair: Windows, work: &'a mut [i8; 64]) -> Window<'a>
    ensures group { (result.group.kind ≡ pair.entry.group.kind) × (result.group.rank ≡ pair.entry.group.rank) }
    ensures entries { result.entries.now ≡ product (inverse pair.entry.first.now) pair.entry.second.now }
{
    let mut back = [0i8; 64];
    let first = Window {
        group: pair.group,
        entries: pair.first,
    };
    let inverse = inverse_of(first, &mut back);
    let steps = Windows {
        group: pair.group,
        first: inverse.entries,
        second: pair.second,
    };
    product_of(steps, work)
}
