// A letter read behind a normal form is carried to the left by rules, in place, and each step is noted in three
// lists. Letters that commute are passed one by one; where none does, the rule that ends with the letter carries
// it past a block, or deletes it with an equal one.
ghost use Rattle.std.specs.Prelude.{◌≡◌, true, false, ◌∷◌, ◌++◌, ℕ, suc, ◌+◌, ◌-◌, ◌≤◌, ◌<◌, min, length, get_or, take, drop, set, MatchOption};
ghost use Rattle.coxeter.specs.NormalForm.{levels};
ghost use Rattle.coxeter.specs.Checks.{WordOf};
ghost use Rattle.traces.proofs.TwoLetters.{commuting};
ghost use Rattle.traces.proofs.Tracing.{stores, Ready, Carried, Inserted};

use crate::ending::ending_rule;
use crate::search::levels_of;
use window::Group;

// The steps that were made, each noted by its family, its place and the length left, as far as the lists go. They are
// three lists and not one of structs because the C interface hands them in so.
#[derive(Drop)]
pub(crate) struct Steps<'a> {
    pub(crate) made: usize,
    pub(crate) families: &'a mut [u8],
    pub(crate) places: &'a mut [u16],
    pub(crate) lengths: &'a mut [u16],
    ghost equally_long: { (length places.now ≡ length families.now) × (length lengths.now ≡ length families.now) },
}

impl Steps<'_> {
    // One more step. That the lists are the same ones is a clause of each function that takes the steps, since Rattle asks
    // for it where the lists are given back.
    fn note(&mut self, family: u8, place: usize, left: usize)
        requires few { self.old.made ≤ 8386560 }
        requires place_bound { (place ≤ 4096) × (left ≤ 4096) }
        ensures same_lists { (self.new.families.ghost_name ≡ self.old.families.ghost_name)
            × (self.new.places.ghost_name ≡ self.old.places.ghost_name)
            × (self.new.lengths.ghost_name ≡ self.old.lengths.ghost_name) }
        ensures noted { (self.new.made ≡ self.old.made + 1)
            × (self.new.families.now ≡ set self.old.families.now self.old.made family)
            × (self.new.places.now ≡ set self.old.places.now self.old.made place)
            × (self.new.lengths.now ≡ set self.old.lengths.now self.old.made left) }
    {
        let s = self.made;
        if s < self.families.len() {
            self.families[s] = family;
            self.places[s] = place as u16;
            self.lengths[s] = left as u16;
        }
        self.made += 1;
    }

    // The steps by which the letter at q passed the m letters before it.
    fn note_passed(&mut self, m: usize, q: usize, left: usize)
        requires few { self.old.made ≤ 8386560 }
        requires m_le_q { (m ≤ q) × (q ≤ 4096) × (left ≤ 4096) }
        ensures same_lists { (self.new.families.ghost_name ≡ self.old.families.ghost_name)
            × (self.new.places.ghost_name ≡ self.old.places.ghost_name)
            × (self.new.lengths.ghost_name ≡ self.old.lengths.ghost_name) }
        ensures noted { (self.new.made ≡ self.old.made + m)
            × (self.new.families.now ≡ stores (λ i. 2) self.old.families.now self.old.made m)
            × (self.new.places.now ≡ stores (λ i. q - suc i) self.old.places.now self.old.made m)
            × (self.new.lengths.now ≡ stores (λ i. left) self.old.lengths.now self.old.made m) }
    {
        let s = self.made;
        let end = m.min(self.families.len().saturating_sub(s));
        for i in 0..end {
            self.families[s + i] = 2;
            self.places[s + i] = (q - 1 - i) as u16;
            self.lengths[s + i] = left as u16;
        }
        self.made = s + m;
    }
}

// Whether l x is a left side of family 2: l < x, and the two commute. At step `levels` the way of a block turns.
#[tactic(auto, unfolding(traces::proofs::TwoLetters::commuting))]
fn commutes(rank: u8, levels: u8, l: u8, x: u8) -> bool
    requires { l < 255 }
    ensures { result ≡ commuting rank levels l x }
{
    if x == rank {
        if l + 1 == levels {
            return false;
        }
        return l < x;
    }
    l + 1 < x
}

// The letter at q put before those that it commutes with, as far as it goes. Returns where it stands then.
fn shift(group: Group, word: &mut [u8], q: usize) -> usize
    requires { WordOf group.rank word.old × (q < length word.old) }
    ensures { (result ≤ q) × (word.new ≡ take result word.old
        ++ ((get_or word.old q 0 ∷ take (q - result) (drop result word.old)) ++ drop (suc q) word.old))
        × ((j : ℕ) → result ≤ j → j < q → commuting group.rank (levels group.kind group.rank) (get_or word.old j 0) (get_or word.old q 0) ≡ true)
        × (1 ≤ result → commuting group.rank (levels group.kind group.rank) (get_or word.old (result - 1) 0) (get_or word.old q 0) ≡ false) }
{
    let levels = levels_of(group);
    let x = word[q];
    for t in (0..q).rev() {
        let l = word[t];
        if !commutes(group.rank, levels, l, x) {
            word[t + 1] = x;
            return t + 1;
        }
        word[t + 1] = l;
    }
    word[0] = x;
    0
}

// The letter at q passes letters by family 2, one step each, as far as it goes. Returns where it stands then.
fn pass(group: Group, rest: &[u8], steps: &mut Steps<'_>, word: &mut [u8], q: usize) -> usize
    requires { Ready group.kind group.rank rest.now steps.old.made steps.old.families.now steps.old.places.now steps.old.lengths.now word.old q }
    ensures same_lists { (steps.new.families.ghost_name ≡ steps.old.families.ghost_name)
        × (steps.new.places.ghost_name ≡ steps.old.places.ghost_name)
        × (steps.new.lengths.ghost_name ≡ steps.old.lengths.ghost_name) }
    ensures carried { (result ≤ q) × Carried group.kind group.rank rest.now steps.old.made steps.old.families.now steps.old.places.now steps.old.lengths.now
        word.old steps.new.made steps.new.families.now steps.new.places.now steps.new.lengths.now word.new result
        × (1 ≤ result → commuting group.rank (levels group.kind group.rank) (get_or word.new (result - 1) 0) (get_or word.new result 0) ≡ false) }
{
    let left = word.len() + rest.len();
    let t = shift(group, word, q);
    steps.note_passed(q - t, q, left);
    t
}

// `first` stored at `place`, and the letters from there up to before q moved on by one, over the letter at q.
fn carry(word: &mut [u8], place: usize, q: usize, first: u8)
    requires { (place ≤ q) × (q < length word.old) }
    ensures { word.new ≡ take place word.old
        ++ ((first ∷ take (q - place) (drop place word.old)) ++ drop (suc q) word.old) }
{
    for t in (place..q).rev() {
        word[t + 1] = word[t];
    }
    word[place] = first;
}

// The letters behind the two at `place` moved there.
fn delete(word: &mut [u8], place: usize)
    requires { place + 2 ≤ length word.old }
    ensures { take (length word.old - 2) word.new
        ≡ take place word.old ++ drop (place + 2) word.old }
{
    if place + 2 < word.len() {
        word.copy_within(place + 2.., place);
    }
}

// How many letters the word has, and where the moving letter stands, if it still moves.
#[derive(Clone, Copy)]
struct Moved {
    size: usize,
    place: Option<usize>,
}

// Applies the rule that ends at q, if there is one. The letter at q does not commute with the one before it.
fn turn(group: Group, rest: &[u8], steps: &mut Steps<'_>, word: &mut [u8], q: usize) -> Moved
    requires ready { Ready group.kind group.rank rest.now steps.old.made steps.old.families.now steps.old.places.now steps.old.lengths.now word.old q }
    requires q_value { 1 ≤ q → commuting group.rank (levels group.kind group.rank) (get_or word.old (q - 1) 0) (get_or word.old q 0) ≡ false }
    ensures same_lists { (steps.new.families.ghost_name ≡ steps.old.families.ghost_name)
        × (steps.new.places.ghost_name ≡ steps.old.places.ghost_name)
        × (steps.new.lengths.ghost_name ≡ steps.old.lengths.ghost_name) }
    ensures moved { MatchOption result.place
        (Inserted group.kind group.rank rest.now steps.old.made steps.old.families.now steps.old.places.now steps.old.lengths.now
        word.old steps.new.made steps.new.families.now steps.new.places.now steps.new.lengths.now word.new result.size)
        (λ p. (p < q) × (result.size ≡ length word.old)
        × Carried group.kind group.rank rest.now steps.old.made steps.old.families.now steps.old.places.now steps.old.lengths.now word.old
        steps.new.made steps.new.families.now steps.new.places.now steps.new.lengths.now word.new p) }
{
    let size = word.len();
    let Some(rule) = ending_rule(group, word, q) else {
        return Moved { size, place: None };
    };
    let place = rule.place;
    if rule.family == 1 {
        let left = size - 2;
        steps.note(1, place, left + rest.len());
        delete(word, place);
        return Moved {
            size: left,
            place: None,
        };
    }
    steps.note(rule.family, place, size + rest.len());
    carry(word, place, q, rule.first);
    Moved {
        size,
        place: Some(place),
    }
}

// The last letter of `word` is carried to where no rule ends with it, or deleted; `rest` follows the word. Returns how
// many letters the word has then.
pub(crate) fn insert(group: Group, rest: &[u8], steps: &mut Steps<'_>, word: &mut [u8]) -> usize
    requires { Ready group.kind group.rank rest.now steps.old.made steps.old.families.now steps.old.places.now steps.old.lengths.now word.old (length word.old - 1) }
    ensures same_lists { (steps.new.families.ghost_name ≡ steps.old.families.ghost_name)
        × (steps.new.places.ghost_name ≡ steps.old.places.ghost_name)
        × (steps.new.lengths.ghost_name ≡ steps.old.lengths.ghost_name) }
    ensures inserted { Inserted group.kind group.rank rest.now steps.old.made steps.old.families.now steps.old.places.now steps.old.lengths.now
        word.old steps.new.made steps.new.families.now steps.new.places.now steps.new.lengths.now word.new result }
{
    let mut size = word.len();
    let mut place = Some(size - 1);
    while let Some(q) = place {
        // No rule ends with the first letter.
        if q == 0 {
            return size;
        }
        let at = pass(group, rest, steps, word, q);
        let made = turn(group, rest, steps, word, at);
        size = made.size;
        place = made.place;
    }
    size
}
