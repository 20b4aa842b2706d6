// Writing the word that a rule leaves: by family 1 what stands before and what stands after, by the others the whole
// word and then the right side over it.
ghost use Rattle.std.specs.Prelude.{◌≡◌, ◌∷◌, ◌++◌, ◌+◌, ◌-◌, ◌<◌, ◌≤◌, length, take, drop};
ghost use Rattle.std.proofs.lemmas.List.Edits.{sets};
ghost use Rattle.rules.specs.Rules.{rewritten};
ghost use Rattle.rules.proofs.Scan.{first_letter, shown_rule, right_length};
ghost use Rattle.coxeter.specs.Calls.{front};

use crate::search::Fitting;
use window::Word;

// `part` written to `out` from `at` on. Three crates have their own copy: a public one would need a `requires`.
pub(crate) fn copy(part: &[u8], out: &mut [u8], at: usize)
    requires { at + length part.now ≤ length out.old }
    ensures { out.new ≡ sets out.old at part.now }
{
    out[at..at + part.len()].copy_from_slice(part);
}

// The length of the word that the rule leaves of one of `size` letters: without its left side, with its right side.
#[tactic(auto, unfolding(rules::proofs::Scan::right_length))]
pub(crate) fn new_length(rule: Fitting, size: usize) -> usize
    requires { rule.left ≤ size }
    ensures { result ≡ size - rule.left + right_length rule.family rule.left }
{
    if rule.family == 1 {
        return size - rule.left;
    }
    size
}

// The word without the `left` letters at the place, as family 1 leaves it.
fn write_without(word: &[u8], place: usize, left: usize, out: &mut [u8])
    requires left_in_bounds { place + left ≤ length word.now }
    requires left_in_bounds_2 { length word.now - left ≤ length out.old }
    ensures { out.new ≡
        front (take place word.now ++ drop (place + left) word.now) out.old }
{
    copy(&word[..place], out, 0);
    copy(&word[place + left..], out, place);
}

// The letter that the right side of families 2 to 7 puts first.
#[tactic(auto, unfolding(rules::proofs::Scan::first_letter))]
pub(crate) fn first_letter(rank: u8, family: u8, i: u8, j: u8) -> u8
    requires { (1 ≤ rank) × (i < 255) }
    ensures { result ≡ first_letter rank family i j }
{
    if family == 2 {
        return j;
    }
    if family < 5 {
        return i + 1;
    }
    if family == 6 {
        return rank - 1;
    }
    rank
}

// The word with `first` put before the `left` letters at the place and the last of them left out, as families 2 to
// 7 leave it.
fn write_moved(word: &[u8], place: usize, left: usize, first: u8, out: &mut [u8])
    requires le_left { (1 ≤ left) × (place + left ≤ length word.now) }
    requires word_in_bounds { length word.now ≤ length out.old }
    ensures { out.new ≡
        front
        (take place word.now ++ ((first ∷ take (left - 1) (drop place word.now)) ++ drop (place + left) word.now))
        out.old }
{
    copy(word, out, 0);
    out[place] = first;
    copy(&word[place..place + left - 1], out, place + 1);
}

// The word that the rule leaves at the place where it fits.
pub(crate) fn write_rewritten(word: Word<'_>, rule: Fitting, place: usize, out: &mut [u8])
    requires i_bound { rule.i < 255 }
    requires le_left { (1 ≤ rule.left) × (place + rule.left ≤ length word.letters.now) }
    requires left_in_bounds { length word.letters.now - rule.left + right_length rule.family rule.left ≤ length out.old }
    ensures { out.new ≡
        front (rewritten (shown_rule word.entry.group.rank rule.family rule.i rule.j (take rule.left (drop place word.entry.letters.now))) word.entry.letters.now place) out.old }
{
    let letters = word.letters;
    if rule.family == 1 {
        write_without(letters, place, rule.left, out);
        return;
    }
    let first = first_letter(word.group.rank, rule.family, rule.i, rule.j);
    write_moved(letters, place, rule.left, first, out);
}
