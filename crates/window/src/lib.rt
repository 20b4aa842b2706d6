// The window layer: what a word of a Coxeter group of kind A, B or D shows, as a signed permutation (I4 to I17 of
// the specification).
//
// The calls of the specification take kinds and ranks as numbers (K2, K4), words as bytes and windows as signed bytes.
// No public function has a `requires`: every input is checked in the order of CO2, and what a call returns and writes
// is a definition of coxeter/specs/Calls for every input, refused ones included. An accepted call writes to the front
// of its output and leaves what lies behind (I2); a refused one writes nothing (CO6). For the layers above,
// `lacks_room` and the calls whose names begin with `write` take a word or a window that passed its checks.
#![tactic(auto)]

mod action;
mod entries;
mod forms;
mod length;
mod normal;
mod pairs;
mod product;
mod shown;
mod words;

ghost use Rattle.std.specs.Prelude.{◌≡◌};
ghost use Rattle.coxeter.specs.Kinds.{kind_of};
ghost use Rattle.coxeter.specs.Windows.{product, inverse};
ghost use Rattle.coxeter.specs.Checks.{◌then◌, rank_refusal, window_refusal};
ghost use Rattle.coxeter.specs.NormalForm.{normal_form};
ghost use Rattle.coxeter.specs.Dictionary.{shortlex};
ghost use Rattle.coxeter.specs.answers.Answer.{as_answer};
ghost use Rattle.coxeter.specs.answers.Choice.{as_choice};
ghost use Rattle.coxeter.specs.answers.Counted.{as_counted};
ghost use Rattle.coxeter.specs.answers.Verdict.{as_verdict};
ghost use Rattle.coxeter.specs.Calls.{Yields, writes, window_of_word, product_of_windows, inverse_of_window};
ghost use Rattle.coxeter.specs.Calls.{normal_form_of_window, normal_form_of_word, product_of_words, inverse_of_word};
ghost use Rattle.coxeter.specs.Calls.{length_of_window, length_of_word, crossings_of_window, crossings_of_word, presets_equal, hands_back, choice};
ghost use Rattle.coxeter.specs.Calls as calls;

pub use coxeter::{Better, Group, Kind, LengthCounts, Refusal, Window, Word};
use forms::write_product;
pub use forms::{
    lacks_room, write_form, write_form_between, write_form_of_inverse, write_form_of_product,
    write_form_of_word, write_inverse, write_window,
};
use length::crossings_of;
pub use pairs::Windows;
use pairs::accepted_pair;
use refusals::{accepted_presets, accepted_window, accepted_words};
pub use refusals::{accepted_letters, accepted_word, group_of};
use shown::{inverse_of, shown, shown_product};
use words::is_shortlex;

// I4: writes the window of `word` and returns its length, the number of lanes. Checks 5, 6, 7, 8, 14.
pub fn window_of_word(kind: u8, rank: u8, word: &[u8], out: &mut [i8]) -> Result<usize, Refusal>
    ensures { Yields (window_of_word kind rank word.now out.old) (as_answer result) out.new }
{
    let word = accepted_word(kind, rank, word)?;
    write_window(word, out)
}

// I9: writes the product u v and returns its length. Checks 5 and 6, then 9 to 11 of u, then of v, 14.
pub fn product_of_windows(
    kind: u8,
    rank: u8,
    u: &[i8],
    v: &[i8],
    out: &mut [i8],
) -> Result<usize, Refusal>
    ensures { Yields (product_of_windows kind rank u.now v.now out.old) (as_answer result) out.new }
{
    let pair = accepted_pair(kind, rank, u, v)?;
    write_product(pair, out)
}

// I10: writes the inverse of w and returns its length. Checks 5, 6, 9, 10, 11, 14.
pub fn inverse_of_window(kind: u8, rank: u8, w: &[i8], out: &mut [i8]) -> Result<usize, Refusal>
    ensures { Yields (inverse_of_window kind rank w.now out.old) (as_answer result) out.new }
{
    let window = accepted_window(kind, rank, w)?;
    write_inverse(window, out)
}

// I5: writes the normal form of w and returns its length. Checks 5, 6, 9, 10, 11, 14.
pub fn normal_form_of_window(kind: u8, rank: u8, w: &[i8], out: &mut [u8]) -> Result<usize, Refusal>
    ensures { Yields (normal_form_of_window kind rank w.now out.old) (as_answer result) out.new }
{
    let window = accepted_window(kind, rank, w)?;
    write_form(window, out)
}

// I6: writes the normal form of `word` and returns its length. Checks 5, 6, 7, 8, 14.
pub fn normal_form_of_word(
    kind: u8,
    rank: u8,
    word: &[u8],
    out: &mut [u8],
) -> Result<usize, Refusal>
    ensures { Yields (normal_form_of_word kind rank word.now out.old) (as_answer result) out.new }
{
    let word = accepted_word(kind, rank, word)?;
    write_form_of_word(word, out)
}

// I7: writes the normal form of u followed by v and returns its length. Checks 5 and 6, then 7 and 8 of u, then of
// v, 14.
pub fn product_of_words(
    kind: u8,
    rank: u8,
    u: &[u8],
    v: &[u8],
    out: &mut [u8],
) -> Result<usize, Refusal>
    ensures { Yields (product_of_words kind rank u.now v.now out.old) (as_answer result) out.new }
{
    let (first, second) = accepted_words(kind, rank, u, v)?;
    let mut work = [0i8; 64];
    write_form(shown_product(first, second, &mut work), out)
}

// I8: writes the normal form of the word read backwards and returns its length. Checks 5, 6, 7, 8, 14.
pub fn inverse_of_word(kind: u8, rank: u8, word: &[u8], out: &mut [u8]) -> Result<usize, Refusal>
    ensures { Yields (inverse_of_word kind rank word.now out.old) (as_answer result) out.new }
{
    let word = accepted_word(kind, rank, word)?;
    let mut work = [0i8; 64];
    write_form_of_inverse(shown(word, &mut work), out)
}

// I34: writes the normal form of the product of two windows of one kind and rank to the front of `out` and returns its
// length. Refuses with 5 or 6, then 9 to 11 for u, then 9 to 11 for v, then 14 where `out` is shorter than the normal
// form; `out` is then left as it was.
pub fn normal_form_of_product(
    kind: u8,
    rank: u8,
    u: &[i8],
    v: &[i8],
    out: &mut [u8],
) -> Result<usize, Refusal>
    ensures { Yields (writes (rank_refusal kind rank then window_refusal (kind_of kind) rank u.now
        then window_refusal (kind_of kind) rank v.now)
        (normal_form (kind_of kind) rank (product u.now v.now)) out.old) (as_answer result) out.new }
{
    let pair = accepted_pair(kind, rank, u, v)?;
    write_form_of_product(pair, out)
}

// I34: writes the normal form of a window's inverse to the front of `out` and returns its length. Refuses with 5 or 6,
// then 9 to 11, then 14 where `out` is shorter than the normal form; `out` is then left as it was.
pub fn normal_form_of_inverse(
    kind: u8,
    rank: u8,
    w: &[i8],
    out: &mut [u8],
) -> Result<usize, Refusal>
    ensures { Yields (writes (rank_refusal kind rank then window_refusal (kind_of kind) rank w.now)
        (normal_form (kind_of kind) rank (inverse w.now)) out.old) (as_answer result) out.new }
{
    let window = accepted_window(kind, rank, w)?;
    write_form_of_inverse(window, out)
}

// I34: writes the normal form of the window that leads from u to v to the front of `out` and returns its length.
// Refuses with 5 or 6, then 9 to 11 for u, then 9 to 11 for v, then 14 where `out` is shorter than the normal form;
// `out` is then left as it was.
pub fn normal_form_between(
    kind: u8,
    rank: u8,
    u: &[i8],
    v: &[i8],
    out: &mut [u8],
) -> Result<usize, Refusal>
    ensures { Yields (writes (rank_refusal kind rank then window_refusal (kind_of kind) rank u.now
        then window_refusal (kind_of kind) rank v.now)
        (normal_form (kind_of kind) rank (product (inverse u.now) v.now)) out.old) (as_answer result) out.new }
{
    let pair = accepted_pair(kind, rank, u, v)?;
    write_form_between(pair, out)
}

// I12: the length of w, from its entries alone. Checks 5, 6, 9, 10, 11.
pub fn length_of_window(kind: u8, rank: u8, w: &[i8]) -> Result<usize, Refusal>
    ensures { as_answer result ≡ length_of_window kind rank w.now }
{
    let counts = crossings_of_window(kind, rank, w)?;
    Ok(counts.inversions + counts.negative_sum_pairs + counts.negatives)
}

// I11: the length of the word's normal form, which is written nowhere. Checks 5, 6, 7, 8.
pub fn length_of_word(kind: u8, rank: u8, word: &[u8]) -> Result<usize, Refusal>
    ensures { as_answer result ≡ length_of_word kind rank word.now }
{
    let counts = crossings_of_word(kind, rank, word)?;
    Ok(counts.inversions + counts.negative_sum_pairs + counts.negatives)
}

// I14: the length of w as its three counts: inversions, negative sum pairs and negative entries, as the kind counts
// them. Checks 5, 6, 9, 10, 11.
pub fn crossings_of_window(kind: u8, rank: u8, w: &[i8]) -> Result<LengthCounts, Refusal>
    ensures { as_counted result ≡ crossings_of_window kind rank w.now }
{
    let window = accepted_window(kind, rank, w)?;
    Ok(crossings_of(window))
}

// I13: the length of the word's window as its three counts. Checks 5, 6, 7, 8.
pub fn crossings_of_word(kind: u8, rank: u8, word: &[u8]) -> Result<LengthCounts, Refusal>
    ensures { as_counted result ≡ crossings_of_word kind rank word.now }
{
    let word = accepted_word(kind, rank, word)?;
    let mut work = [0i8; 64];
    Ok(crossings_of(shown(word, &mut work)))
}

// I15: whether two presets show the same, whatever their kinds and ranks. Checks 5 to 8 of the first preset, then
// of the second.
pub fn presets_equal(
    kind_a: u8,
    rank_a: u8,
    a: &[u8],
    kind_b: u8,
    rank_b: u8,
    b: &[u8],
) -> Result<bool, Refusal>
    ensures { as_verdict result ≡ presets_equal kind_a rank_a a.now kind_b rank_b b.now }
{
    let (first, second) = accepted_presets(kind_a, rank_a, a, kind_b, rank_b, b)?;
    if first.group.lanes() != second.group.lanes() {
        return Ok(false);
    }
    let mut work = [0i8; 64];
    let mut other = [0i8; 64];
    Ok(shown(first, &mut work).entries == shown(second, &mut other).entries)
}

// I17: which of two words is the better one (V3), or neither if the windows differ or a check refuses; then
// `presets_equal` gives the refusal (V5).
pub fn which_better(kind: u8, rank: u8, u: &[u8], v: &[u8]) -> Option<Better>
    ensures { as_choice result ≡ choice (hands_back kind rank u.now v.now) (shortlex v.now u.now) }
{
    if presets_equal(kind, rank, u, kind, rank, v) != Ok(true) {
        return None;
    }
    if is_shortlex(v, u) {
        return Some(Better::Second);
    }
    Some(Better::First)
}

// I16, G15: the better word as `which_better` chooses it: the lent slice itself, or with neither the empty part at
// the start of the first word. Nothing is copied.
pub fn better_word<'a>(kind: u8, rank: u8, u: &'a [u8], v: &'a [u8]) -> &'a [u8]
    ensures { calls.Better (hands_back kind rank u.now v.now) (shortlex v.now u.now)
        u.entry v.entry result }
{
    match which_better(kind, rank, u, v) {
        Some(Better::First) => u,
        Some(Better::Second) => v,
        None => &u[0..0],
    }
}
