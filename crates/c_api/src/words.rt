// Calls on words.
ghost use Rattle.std.specs.Prelude.{◌≡◌};
ghost use Rattle.coxeter.specs.Dictionary.{shortlex};
ghost use Rattle.coxeter.specs.Calls.{window_of_word, normal_form_of_word, product_of_words, inverse_of_word, length_of_word, crossings_of_word};
ghost use Rattle.coxeter.specs.Calls.{presets_equal, hands_back, choice};
ghost use Rattle.c_api.specs.Calls.{numbered, number_of, verdict_number, choice_number, crossing_numbers, listed};

use crate::numbers::{byte, number_of, refusal_number, write_crossings};
use coxeter::Better;

// I4: the window of a word, written to the front of `out`. Returns the number of its entries.
pub fn winnathey_window_of_word(kind: u32, rank: u32, word: &[u8], out: &mut [i8]) -> i64
    ensures { (result, out.new) ≡ numbered (window_of_word kind rank word.now out.old) }
{
    number_of(window::window_of_word(byte(kind), byte(rank), word, out))
}

// I6: the normal form of a word, written to the front of `out`. Returns its length.
pub fn winnathey_normal_form_of_word(kind: u32, rank: u32, word: &[u8], out: &mut [u8]) -> i64
    ensures { (result, out.new) ≡ numbered (normal_form_of_word kind rank word.now out.old) }
{
    number_of(window::normal_form_of_word(byte(kind), byte(rank), word, out))
}

// I7: the product of two words of one kind and rank as a normal form, written to the front of `out`. Returns its
// length.
pub fn winnathey_product_of_words(
    kind: u32,
    rank: u32,
    first: &[u8],
    second: &[u8],
    out: &mut [u8],
) -> i64
    ensures { (result, out.new) ≡ numbered (product_of_words kind rank first.now second.now out.old) }
{
    number_of(window::product_of_words(byte(kind), byte(rank), first, second, out))
}

// I8: the inverse of a word as a normal form, written to the front of `out`. Returns its length.
pub fn winnathey_inverse_of_word(kind: u32, rank: u32, word: &[u8], out: &mut [u8]) -> i64
    ensures { (result, out.new) ≡ numbered (inverse_of_word kind rank word.now out.old) }
{
    number_of(window::inverse_of_word(byte(kind), byte(rank), word, out))
}

// I11: the length of a word's normal form.
pub fn winnathey_length_of_word(kind: u32, rank: u32, word: &[u8]) -> i64
    ensures { result ≡ number_of (length_of_word kind rank word.now) }
{
    number_of(window::length_of_word(byte(kind), byte(rank), word))
}

// I13: the length of a word's normal form as its three counts: inversions, negative sum pairs and negative entries
// go to the first three places of `counts`. Returns their total.
pub fn winnathey_crossings_of_word(kind: u32, rank: u32, word: &[u8], counts: &mut [u64]) -> i64
    ensures { (result, counts.new) ≡ listed (crossing_numbers (crossings_of_word kind rank word.now)) counts.old }
{
    number_of(write_crossings(
        window::crossings_of_word(byte(kind), byte(rank), word),
        counts,
    ))
}

// I15: whether two presets show the same window, whatever their kinds and ranks: 1 is yes, 0 is no.
pub fn winnathey_same(
    kind1: u32,
    rank1: u32,
    word1: &[u8],
    kind2: u32,
    rank2: u32,
    word2: &[u8],
) -> i64
    ensures { result ≡ verdict_number (presets_equal kind1 rank1 word1.now kind2 rank2 word2.now) }
{
    match window::presets_equal(
        byte(kind1),
        byte(rank1),
        word1,
        byte(kind2),
        byte(rank2),
        word2,
    ) {
        Ok(true) => 1,
        Ok(false) => 0,
        Err(refusal) => refusal_number(refusal.number()),
    }
}

// I17: the better of two words of one kind and rank: 1 is the first, 2 the second. 0 if the windows differ or a
// check refuses.
pub fn winnathey_better(kind: u32, rank: u32, first: &[u8], second: &[u8]) -> i64
    ensures { result ≡ choice_number (choice (hands_back kind rank first.now second.now)
        (shortlex second.now first.now)) }
{
    match window::which_better(byte(kind), byte(rank), first, second) {
        Some(Better::First) => 1,
        Some(Better::Second) => 2,
        None => 0,
    }
}
