// The checks on a kind, a rank and a word (C5 to C8 of the specification), each made by one function. A kind comes as a
// number, as every call takes it (K2): a parameter that has only the three kinds would ask more of callers.
ghost use Rattle.std.specs.Prelude.{◌≡◌, ◌+◌, ◌≤◌, IfOk};
ghost use Rattle.coxeter.specs.Kinds.{kind_of, lanes};
ghost use Rattle.coxeter.specs.Refusals.{refusal_of};
ghost use Rattle.coxeter.specs.answers.Lanes.{as_lanes};
ghost use Rattle.coxeter.specs.Checks.{◌then◌, rank_refusal, word_refusal, wrong_letter};
ghost use Rattle.coxeter.specs.Calls.{lanes_of};

use coxeter::{Group, Kind, Refusal, Word};

// C7: the most letters of a word.
const LONGEST: usize = 4096;

// I33, K3: the group of a kind and a rank, and with it how many lanes it has, after checks 5 and 6.
pub fn group_of(kind: u8, rank: u8) -> Result<Group, Refusal>
    ensures refusal { refusal_of result ≡ rank_refusal kind rank }
    ensures group { IfOk result (λ g. (g.kind ≡ kind_of kind) × (g.rank ≡ rank)) }
    ensures lanes { as_lanes result ≡ lanes_of (rank_refusal kind rank) (lanes (kind_of kind) rank) }
{
    let kind = Kind::try_from(kind)?;
    if rank < kind.least_rank() || kind.greatest_rank() < rank {
        return Err(Refusal::RankOutOfRange);
    }
    Ok(Group { kind, rank })
}

// A letter less one, where 0 becomes 255: a letter is wrong if that is not below the rank.
fn less_one(s: u8) -> u8
    ensures { (s ≡ 0 → result ≡ 255) × (1 ≤ s → s ≡ result + 1) }
{
    s.wrapping_sub(1)
}

// C8. Every letter is looked at, without a way out of the loop, so that many letters are taken at a time; the rank
// is compared once, with the greatest.
fn has_wrong_letter(rank: u8, word: &[u8]) -> bool
    ensures { result ≡ wrong_letter rank word.now }
{
    let mut highest: u8 = 0;
    for s in word {
        highest = highest.max(less_one(*s));
    }
    !word.is_empty() & (rank <= highest)
}

// C7, C8: of a word, by the rank of its group.
fn check_word(rank: u8, word: &[u8]) -> Result<(), Refusal>
    ensures { refusal_of result ≡ word_refusal rank word.now }
{
    if LONGEST < word.len() {
        return Err(Refusal::WordTooLong);
    }
    if has_wrong_letter(rank, word) {
        return Err(Refusal::WrongLetter);
    }
    Ok(())
}

// I36: the word of a group with these letters, after checks 7 and 8.
pub fn accepted_letters<'a>(group: Group, letters: &'a [u8]) -> Result<Word<'a>, Refusal>
    ensures refusal { refusal_of result ≡ word_refusal group.rank letters.now }
    ensures word { IfOk result (λ u. (u.group.kind ≡ group.kind) × (u.group.rank ≡ group.rank) × (u.letters ≡ letters.entry)) }
{
    check_word(group.rank, letters)?;
    Ok(Word { group, letters })
}

// I33: the word of a preset, after checks 5 to 8.
pub fn accepted_word<'a>(kind: u8, rank: u8, letters: &'a [u8]) -> Result<Word<'a>, Refusal>
    ensures refusal { refusal_of result ≡ (rank_refusal kind rank then word_refusal rank letters.now) }
    ensures word { IfOk result (λ u. (u.group.kind ≡ kind_of kind) × (u.group.rank ≡ rank) × (u.letters ≡ letters.entry)) }
{
    let group = group_of(kind, rank)?;
    accepted_letters(group, letters)
}

// I33, CO4: the words of two presets, after checks 5 to 8 of both, all of the first's before the second's.
pub fn accepted_presets<'a, 'b>(
    kind_a: u8,
    rank_a: u8,
    a: &'a [u8],
    kind_b: u8,
    rank_b: u8,
    b: &'b [u8],
) -> Result<(Word<'a>, Word<'b>), Refusal>
    ensures refusal { refusal_of result ≡ (rank_refusal kind_a rank_a then word_refusal rank_a a.now
        then rank_refusal kind_b rank_b then word_refusal rank_b b.now) }
    ensures words { IfOk result (λ p. ((p.0.group.kind ≡ kind_of kind_a) × (p.0.group.rank ≡ rank_a) × (p.0.letters ≡ a.entry))
        × ((p.1.group.kind ≡ kind_of kind_b) × (p.1.group.rank ≡ rank_b) × (p.1.letters ≡ b.entry))) }
{
    let first = accepted_word(kind_a, rank_a, a)?;
    let second = accepted_word(kind_b, rank_b, b)?;
    Ok((first, second))
}

// I33, CO4: two words of one kind and rank, after their checks: kind and rank once, then the first word, then the second.
pub fn accepted_words<'a, 'b>(
    kind: u8,
    rank: u8,
    u: &'a [u8],
    v: &'b [u8],
) -> Result<(Word<'a>, Word<'b>), Refusal>
    ensures refusal { refusal_of result ≡ (rank_refusal kind rank then word_refusal rank u.now then word_refusal rank v.now) }
    ensures words { IfOk result (λ p. ((p.0.group.kind ≡ kind_of kind) × (p.0.group.rank ≡ rank) × (p.0.letters ≡ u.entry))
        × ((p.1.group.kind ≡ kind_of kind) × (p.1.group.rank ≡ rank) × (p.1.letters ≡ v.entry))) }
{
    let first = accepted_word(kind, rank, u)?;
    check_word(rank, v)?;
    let second = Word {
        group: first.group,
        letters: v,
    };
    Ok((first, second))
}
