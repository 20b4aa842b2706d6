// The rule whose left side ends with the letter that moves. Its first letter is looked for from that letter back,
// less than 2n places; what stands from there on is then a block, whose last letter and length tell which, and so
// the rule.
ghost use Rattle.std.specs.Prelude.{◌≡◌, suc, ◌-◌, ◌*◌, ◌≤◌, ◌<◌, eqb, length, get_or, take, Some, None};
ghost use Rattle.std.proofs.Math.Option.{none, some};
ghost use Rattle.coxeter.specs.Kinds.{pick};
ghost use Rattle.coxeter.specs.NormalForm.{levels, last_index};
ghost use Rattle.rules.proofs.Scan.{next_index, fork, family_at, shown_index, first_letter};
ghost use Rattle.traces.specs.Traces.{lowest_redex};
ghost use Rattle.traces.proofs.PartBlocks.{index_by};
ghost use Rattle.traces.proofs.Reading.{Reading};
ghost use Rattle.traces.proofs.ReadingSteps.{Stopped, Stuck};

use crate::search::{Way, shown_index};
use crate::writing::first_letter;
use window::{Group, Kind};

// A rule that ends there: its family, where it begins and the letter that its right side puts first.
#[derive(Clone, Copy)]
pub(crate) struct Ending {
    pub(crate) family: u8,
    pub(crate) place: usize,
    pub(crate) first: u8,
}

// The last place before `from` with a letter not above i, but none before `floor`.
fn start_of(word: &[u8], floor: usize, from: usize, i: u8) -> usize
    requires { from ≤ length word.now }
    ensures { Stopped word.now floor from i result }
{
    for t in (floor..from).rev() {
        if word[t] <= i {
            return t;
        }
    }
    floor.min(from)
}

// Where a rule of families 3 to 7 that ends at q begins, if there is one: where the lower of its last two letters
// stood before, less than 2n places back. In kinds A and B the letters between mostly rise by ones, so x stood l - x
// places before l; that place is tried first.
fn place_of(group: Group, word: &[u8], q: usize) -> usize
    requires { Reading group.kind group.rank word.now q × (1 ≤ q) × (q < length word.now) × (q ≤ 4096) }
    ensures { (result ≤ q)
        × (get_or word.now (q - 1) 0 < get_or word.now q 0
        → Stopped word.now (suc q - 2 * group.rank) (q - 1) (get_or word.now (q - 1) 0) result)
        × (get_or word.now q 0 ≤ get_or word.now (q - 1) 0
        → Stopped word.now (suc q - 2 * group.rank) q (get_or word.now q 0) result) }
{
    let l = word[q - 1];
    let x = word[q];
    let floor = (q + 1).saturating_sub(2 * group.rank as usize);
    if l < x {
        return start_of(word, floor, q - 1, l);
    }
    let back = (l - x) as usize;
    if group.kind != Kind::D && back < q {
        let p = q - 1 - back;
        if word[p] == x {
            return p;
        }
    }
    start_of(word, floor, q, x)
}

// The index j of the block [i,j] that has m letters and ends with l.
#[tactic(auto, unfolding(traces::proofs::PartBlocks::index_by))]
fn index_of(group: Group, i: u8, m: u8, l: u8) -> u8
    requires { (i ≤ group.rank) × (1 ≤ m) × (m ≤ 128) }
    ensures { result ≡ index_by group.kind group.rank i m l }
{
    if l == group.rank {
        return l;
    }
    let j = i + m - 1;
    if j < group.rank {
        return j;
    }
    match group.kind {
        Kind::A | Kind::B => j,
        Kind::D => j + 1,
    }
}

// The rule with the left side [i,j] x, if there is one, as it begins at `place`.
fn block_rule(group: Group, i: u8, j: u8, x: u8, place: usize) -> Option<Ending>
    requires { (i ≤ group.rank) × (j ≤ 2 * group.rank) × (x ≤ group.rank) }
    ensures { result ≡ pick (eqb (next_index group.rank (levels group.kind group.rank) (last_index group.kind group.rank i) j x) 0)
        (pick (eqb (family_at group.rank (fork group.kind group.rank) i j x) 0) None
        (Some (record {
          family = family_at group.rank (fork group.kind group.rank) i j x;
          place = place;
          first = first_letter group.rank (family_at group.rank (fork group.kind group.rank) i j x) i (shown_index (family_at group.rank (fork group.kind group.rank) i j x) j x);
        })))
        None }
{
    let way = Way::new(group, i);
    if way.next(j, x).is_some() {
        return None;
    }
    let family = way.family(j, x)?;
    let shown = shown_index(family, j, x);
    let first = first_letter(group.rank, family, i, shown);
    Some(Ending {
        family,
        place,
        first,
    })
}

// The rule that ends with the letter at q, if there is one; the letter does not commute with the one before it.
pub(crate) fn ending_rule(group: Group, word: &[u8], q: usize) -> Option<Ending>
    requires { Stuck group.kind group.rank word.now q }
    ensures { result ≡ elim (lowest_redex group.kind group.rank (take (suc q) word.now)) [
      | none ↦ None
      | some s ↦ Some (record { family = s.rule.family; place = s.place; first = get_or s.rule.right 0 0 })
    ] }
{
    if q == 0 {
        return None;
    }
    let l = word[q - 1];
    let x = word[q];
    if l == x {
        return Some(Ending {
            family: 1,
            place: q - 1,
            first: 0,
        });
    }
    let place = place_of(group, word, q);
    let low = l.min(x);
    if word[place] != low {
        return None;
    }
    let j = index_of(group, low, (q - place) as u8, l);
    block_rule(group, low, j, x, place)
}
