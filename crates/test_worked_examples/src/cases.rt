// Cases: each function makes a call or a few, and returns whether its case holds or how many of its cases do.
ghost use Rattle.std.specs.Prelude.{◌≤◌, length};

use book::Edition;
use rewriter::Rewrite;
use window::Refusal;

// How many of the cases hold.
pub(crate) fn held(cases: &[bool]) -> usize
    ensures { result ≤ length cases.now }
{
    cases.iter().filter(|holds| **holds).count()
}

// The length that a call returns; 0 if it is refused, or returns more than `most`.
fn written(answer: Result<usize, Refusal>, most: usize) -> usize
    ensures { result ≤ most }
{
    match answer {
        Ok(k) if k <= most => k,
        _ => 0,
    }
}

// The window of a word, at the front of `out`; returns how many entries it has.
fn put_window(kind: u8, rank: u8, word: &[u8], out: &mut [i8]) -> usize
    ensures { result ≤ length out.old }
{
    let answer = window::window_of_word(kind, rank, word, out);
    written(answer, out.len())
}

// The normal form of a window, and its length.
fn normal_form(kind: u8, rank: u8, w: &[i8], word: &[u8]) -> usize
    ensures { result ≤ 2 }
{
    let mut out = [0; 16];
    let k = written(window::normal_form_of_window(kind, rank, w, &mut out), 16);
    held(&[
        &out[..k] == word,
        window::length_of_window(kind, rank, w) == Ok(k),
    ])
}

// A word in normal form and its window: the window, its normal form and its length.
pub(crate) fn example(kind: u8, rank: u8, word: &[u8], entries: &[i8]) -> usize
    ensures { result ≤ 3 }
{
    let mut out = [0; 6];
    let m = put_window(kind, rank, word, &mut out);
    let w = &out[..m];
    held(&[w == entries]) + normal_form(kind, rank, w, word)
}

// The product of two words.
pub(crate) fn product(kind: u8, rank: u8, x: &[u8], y: &[u8], word: &[u8]) -> bool {
    let mut out = [0; 16];
    let answer = window::product_of_words(kind, rank, x, y, &mut out);
    let k = written(answer, 16);
    &out[..k] == word
}

// The product of the windows of two words.
pub(crate) fn window_product(kind: u8, rank: u8, x: &[u8], y: &[u8], entries: &[i8]) -> bool {
    let mut u = [0; 6];
    let mut v = [0; 6];
    let mut out = [0; 6];
    let i = put_window(kind, rank, x, &mut u);
    let j = put_window(kind, rank, y, &mut v);
    let answer = window::product_of_windows(kind, rank, &u[..i], &v[..j], &mut out);
    let m = written(answer, 6);
    &out[..m] == entries
}

// A word of one letter: refused, or accepted with length 1.
pub(crate) fn letter(kind: u8, rank: u8, letter: u8, expected: Result<usize, Refusal>) -> bool {
    window::length_of_word(kind, rank, &[letter]) == expected
}

// J11: 4,096 and 4,097 letters.
pub(crate) fn long_words(kind: u8, rank: u8) -> usize
    ensures { result ≤ 2 }
{
    let word = [1; 4097];
    held(&[
        window::length_of_word(kind, rank, &word[..4096]) == Ok(0),
        window::length_of_word(kind, rank, &word) == Err(Refusal::WordTooLong),
    ])
}

// Q10: -128 is refused 10.
pub(crate) fn least_entry(kind: u8, rank: u8) -> bool {
    window::length_of_window(kind, rank, &[1, 2, 3, -128]) == Err(Refusal::WrongEntry)
}

// Q11: 1 3 2 is as short as its normal form 3 1 2, but not the first in the dictionary.
pub(crate) fn not_first(kind: u8, rank: u8) -> bool {
    let mut out = [0; 16];
    let answer = window::normal_form_of_word(kind, rank, &[1, 3, 2], &mut out);
    let k = written(answer, 16);
    &out[..k] == [3, 1, 2].as_slice()
}

// Q9: 2 4 in D₄ has no rule.
pub(crate) fn none_fits() -> bool {
    let mut out = [0; 2];
    matches!(
        rewriter::rewrite_at(3, 4, &[2, 4], 0, &mut out),
        Rewrite::NoneFits
    )
}

// The letters of a preset of a book; a refused one has none.
pub(crate) fn preset_letters(edition: Edition, book: &[u8], number: usize, word: &[u8]) -> bool {
    book::letters(edition, book, number) == word
}
