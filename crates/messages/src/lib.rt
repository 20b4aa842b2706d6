// The messages of the refusals. No public function has a `requires`.
#![tactic(auto)]

ghost use Rattle.coxeter.specs.Calls.{Yields, writes};
ghost use Rattle.coxeter.specs.answers.Answer.{as_answer};
ghost use Rattle.messages.specs.Messages.{refusal_message};

pub use coxeter::Refusal;

// The messages of refusals 1 to 21, line by line. The bytes have nothing between two messages. A `match` on one text each
// would become a table of addresses, which the loader writes; the library has no memory that is written (tests/targets).
const TEXTS: [u8; 2009] = *b"\
    The book is too short or too long: a book has either no bytes or from 2 to 65,535 bytes.\
    The book is too short for the number of presets that its last two bytes give.\
    The book's records and offsets do not fit together: the records must follow one another from byte 0 up to the offsets, and each offset must be where its record begins.\
    There is no preset with this number in the book: presets are numbered from 0.\
    The kind must be 1 (A), 2 (B) or 3 (D).\
    The rank is out of range for its kind: 1 to 63 for A, 2 to 64 for B, 4 to 64 for D, and in a book of the first edition at most 31 for A and 32 for B and D.\
    The word is too long: a word has at most 4,096 letters.\
    A letter of the word is out of range: every letter must be at least 1 and at most the rank.\
    The window has the wrong number of entries: kind A has one more than the rank, kinds B and D have as many as the rank.\
    An entry of the window is wrong: the sizes must be the numbers from 1 to the number of entries, each of them once, and in kind A no entry may be negative.\
    The window has an odd number of negative entries: in kind D the number must be even.\
    The place is past the end of the word: places are counted from 0, one for each letter.\
    The new book would be too long: a book has at most 65,535 bytes.\
    An output is too short for what the call writes to it.\
    One of the three output lists is too short: each needs room for every step of the rewriting.\
    The set of allowed steps has a step above the rank: bit 0 stands for step 1, and only the bits of steps up to the rank may be set.\
    The lane count in the record is wrong: it must be one more than the rank for kind A, and the rank for kinds B and D.\
    The book cannot be converted to the first edition: one of its records has more than 32 lanes.\
    The second window cannot be reached from the first with the allowed steps.\
    The rank is too high for a delay table: at most 19 for kind A, and at most 16 for kinds B and D.\
    A preset of kind A and rank 1 cannot be appended: books that have one are read, but get no new one.\
";

// Where the message of each number from 0 on begins among the texts, that of 0 being empty, and where the last ends.
const STARTS: [usize; 23] = [
    0, 0, 88, 165, 332, 409, 448, 603, 658, 749, 867, 1021, 1105, 1191, 1255, 1309, 1401, 1531,
    1647, 1740, 1814, 1910, 2009,
];

// Writes a text to the front of `out`.
fn put(text: &[u8], out: &mut [u8]) -> Result<usize, Refusal>
    ensures { Yields (writes 0 text.now out.old) (as_answer result) out.new }
{
    if out.len() < text.len() {
        return Err(Refusal::OutputTooShort);
    }
    out[..text.len()].copy_from_slice(text);
    Ok(text.len())
}

// The message of a refusal, written to the front of `out`. A number that is none has no message: it gets the
// length 0. Refusal 14.
pub fn refusal_message(refusal: u8, out: &mut [u8]) -> Result<usize, Refusal>
    ensures { Yields (refusal_message refusal out.old) (as_answer result) out.new }
{
    if 21 < refusal {
        return Ok(0);
    }
    let k = refusal as usize;
    let start = STARTS[k];
    let end = STARTS[k + 1];
    put(&TEXTS[start..end], out)
}
