// Checks the worked examples of source document 000, those of the specification that no table proves (J10 to J12,
// Q7 to Q11), and J13's book, its letters and what it answers when it is opened, and prints how many cases of each
// group hold.
#![tactic(auto)]

mod cases;
mod opened;

ghost use Rattle.std.specs.Prelude.{◌≤◌};

use book::Edition;
use cases::{
    example, held, least_entry, letter, long_words, none_fits, not_first, preset_letters, product,
    window_product,
};
use std::io;
use window::Refusal;

// Source document 000, Example 2: x, y and z = xy.
fn example_2() -> usize
    ensures { result ≤ 11 }
{
    let x = &[4, 2, 3, 1, 2, 3, 4];
    let y = &[5, 4, 3, 4, 5, 2, 3, 4, 5, 1, 2, 3, 4];
    let z = &[5, 4, 3, 4, 2, 3, 1, 2];
    example(1, 5, x, &[3, 5, 2, 4, 1, 6])
        + example(1, 5, y, &[6, 4, 5, 3, 1, 2])
        + example(1, 5, z, &[6, 4, 1, 2, 3, 5])
        + held(&[
            product(1, 5, x, y, z),
            window_product(1, 5, x, y, &[6, 4, 1, 2, 3, 5]),
        ])
}

// Example 3: x, y and z = xy.
fn example_3() -> usize
    ensures { result ≤ 11 }
{
    let x = &[4, 3, 4, 3, 2, 3, 1, 2, 3, 4];
    let y = &[3, 4, 2, 3, 4, 3, 1, 2, 3, 4, 3, 2];
    let z = &[2, 3, 4, 1, 2, 3, 4, 3, 2, 1];
    example(2, 4, x, &[-3, -4, 2, -1])
        + example(2, 4, y, &[4, -1, -2, -3])
        + example(2, 4, z, &[-1, 3, 4, -2])
        + held(&[
            product(2, 4, x, y, z),
            window_product(2, 4, x, y, &[-1, 3, 4, -2]),
        ])
}

// The blocks of Example 3: r4, r35, r23 and r14 of x and r34, r25 and r16 of y.
fn blocks_of_example_3() -> usize
    ensures { result ≤ 21 }
{
    example(2, 4, &[4], &[1, 2, 3, -4])
        + example(2, 4, &[3, 4, 3], &[1, 2, -3, 4])
        + example(2, 4, &[2, 3], &[1, 3, 4, 2])
        + example(2, 4, &[1, 2, 3, 4], &[2, 3, 4, -1])
        + example(2, 4, &[3, 4], &[1, 2, 4, -3])
        + example(2, 4, &[2, 3, 4, 3], &[1, 3, -2, 4])
        + example(2, 4, &[1, 2, 3, 4, 3, 2], &[2, -1, 3, 4])
}

// N11: Examples 2 to 4. Example 4 by the specification's blocks, since the paper's product of blocks for D has
// damaged indices.
fn worked() -> usize {
    example_2()
        + example_3()
        + blocks_of_example_3()
        + example(3, 5, &[5, 2, 3, 5, 1, 2], &[3, -5, 1, 4, -2])
}

// J10, J11, J12, at the greatest rank of each kind.
fn limits() -> usize {
    held(&[
        letter(1, 63, 1, Ok(1)),
        letter(1, 64, 1, Err(Refusal::RankOutOfRange)),
        letter(2, 64, 1, Ok(1)),
        letter(2, 65, 1, Err(Refusal::RankOutOfRange)),
        letter(3, 64, 1, Ok(1)),
        letter(3, 65, 1, Err(Refusal::RankOutOfRange)),
        letter(1, 63, 63, Ok(1)),
        letter(1, 63, 64, Err(Refusal::WrongLetter)),
        letter(2, 64, 64, Ok(1)),
        letter(2, 64, 65, Err(Refusal::WrongLetter)),
        letter(3, 64, 64, Ok(1)),
        letter(3, 64, 65, Err(Refusal::WrongLetter)),
    ]) + long_words(1, 63)
        + long_words(2, 64)
        + long_words(3, 64)
}

// Q7 to Q11: values exchanged for positions, the usual order of the integers for the last step alone of B and of D,
// B's rule for 2 4 in D₄, a negated -128, and a shortest word that is not the first in the dictionary.
fn mistakes() -> usize {
    example(1, 2, &[1, 2], &[2, 3, 1])
        + example(2, 2, &[2], &[1, -2])
        + example(3, 4, &[4], &[1, 2, -4, -3])
        + held(&[
            none_fits(),
            least_entry(1, 3),
            least_entry(2, 4),
            least_entry(3, 4),
            not_first(1, 3),
            not_first(2, 4),
            not_first(3, 4),
        ])
}

// J13: the book in either edition, with the letters 1 2 1 2 of B₂ and 5 2 3 5 1 2 of D₅. There is no preset 2, so
// it has no letters.
fn letters(edition: Edition, book: &[u8]) -> usize
    ensures { result ≤ 3 }
{
    held(&[
        preset_letters(edition, book, 0, &[1, 2, 1, 2]),
        preset_letters(edition, book, 1, &[5, 2, 3, 5, 1, 2]),
        preset_letters(edition, book, 2, &[]),
    ])
}

// The same book opened: its letters begin at bytes s and e.
fn opened_book(edition: Edition, book: &[u8], s: usize, e: usize) -> usize
    ensures { result ≤ 9 }
{
    opened::found(edition, book, s, e)
        + opened::refused(edition, book, Ok(2), 2, 3, Refusal::NoSuchPreset)
        + held(&[
            opened::letters(edition, book, 0, &[1, 2, 1, 2]),
            opened::letters(edition, book, 1, &[5, 2, 3, 5, 1, 2]),
            opened::letters(edition, book, 2, &[]),
        ])
}

// Opened in the other edition it is refused 3, and so is each of its presets.
fn other_edition(edition: Edition, book: &[u8]) -> usize
    ensures { result ≤ 4 }
{
    let refusal = Refusal::BookLayout;
    opened::refused(edition, book, Err(refusal), 0, 1, refusal)
        + held(&[opened::letters(edition, book, 0, &[])])
}

// Wrong on purpose, a case of each sort: a count above 0 would say that a test here cannot fail.
fn wrong() -> usize {
    held(&[
        letter(1, 63, 1, Err(Refusal::RankOutOfRange)),
        letter(1, 64, 1, Ok(1)),
        product(1, 5, &[1], &[2], &[2, 1]),
        window_product(1, 5, &[1], &[2], &[3, 1, 2, 4, 5, 6]),
    ])
}

fn report(rt: &impl Print, name: &str, held: usize) -> io::Result<()> {
    println!(rt; "{name}{held} cases hold")
}

fn books(rt: &impl Print) -> io::Result<()> {
    let first =
        b"\x02\x02\x04\x00\x01\x02\x01\x02\x03\x05\x06\x00\x05\x02\x03\x05\x01\x02\x00\x00\x08\x00\x02\x00";
    let second =
        b"\x02\x02\x02\x04\x00\x01\x02\x01\x02\x03\x05\x05\x06\x00\x05\x02\x03\x05\x01\x02\x00\x00\x09\x00\x02\x00";
    let in_books = letters(Edition::First, first) + letters(Edition::Second, second);
    report(rt, "Letters in books: ", in_books)?;
    let opened = opened_book(Edition::First, first, 4, 12)
        + opened_book(Edition::Second, second, 5, 14)
        + other_edition(Edition::Second, first);
    report(rt, "Opened books: ", opened)
}

fn main(rt: HostRuntime) -> io::Result<()> {
    report(&rt, "Examples 2 to 4: ", worked())?;
    report(&rt, "Limits: ", limits())?;
    report(&rt, "Mistakes close at hand: ", mistakes())?;
    books(&rt)?;
    report(&rt, "Wrong on purpose: ", wrong())
}
