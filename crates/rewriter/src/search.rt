// The search for the rule that fits at a place. The letters are followed along the way of the blocks [i,j] of the
// first letter i; the letter that leaves the way decides the rule, so at most 2n letters are looked at.
ghost use Rattle.std.specs.Prelude.{◌≡◌, ◌≢◌, ◌*◌, ◌<◌, ◌≤◌, length, MatchOption, Some, None};
ghost use Rattle.std.proofs.Math.Option.{none, some};
ghost use Rattle.coxeter.specs.NormalForm.{levels, last_index};
ghost use Rattle.rules.specs.Rules.{rules, first_fitting};
ghost use Rattle.rules.proofs.Scan as scan;
ghost use Rattle.rules.proofs.Scan.{next_index, family_at_end, family_at, shown_index};

use window::{Group, Kind, Word};

// A rule that fits, as a rewrite returns it, with the length of its left side. Families are the numbers 1 to
// 7 that the answers show (R2).
#[derive(Clone, Copy)]
pub(crate) struct Fitting {
    pub(crate) family: u8,
    pub(crate) i: u8,
    pub(crate) j: u8,
    pub(crate) left: usize,
}

// The number of levels, which is also the step at which the way of a block turns.
pub(crate) fn levels_of(group: Group) -> u8
    ensures { result ≡ levels group.kind group.rank }
{
    match group.kind {
        Kind::A | Kind::B => group.rank,
        Kind::D => group.rank - 1,
    }
}

// The way of the blocks of level i: the step at which it turns, the last index, and the step after which it goes on
// with n - 1 or with n, which only kind D has: 0 elsewhere, which is no step, so that one comparison serves every kind.
#[derive(Clone, Copy)]
pub(crate) struct Way {
    group: Group,
    i: u8,
    turn: u8,
    last: u8,
    fork: u8,
    ghost within: { i ≤ group.rank },
    ghost turns: { turn ≡ levels group.kind group.rank },
    ghost ends: { last ≡ last_index group.kind group.rank i },
    ghost forks: { fork ≡ scan.fork group.kind group.rank },
}

impl Way {
    pub(crate) fn new(group: Group, i: u8) -> Way
        requires { i ≤ group.rank }
        ensures { (result.group ≡ group) × (result.i ≡ i) }
    {
        let rank = group.rank;
        let turn = levels_of(group);
        match group.kind {
            Kind::A => Way {
                group,
                i,
                turn,
                last: rank,
                fork: 0,
            },
            Kind::B => Way {
                group,
                i,
                turn,
                last: 2 * rank - i,
                fork: 0,
            },
            Kind::D => Way {
                group,
                i,
                turn,
                last: 2 * rank - i,
                fork: rank - 2,
            },
        }
    }

    // The index of the block [i,j] with the letter x after it, unless x leaves the way.
    #[tactic(auto, unfolding(rules::proofs::Scan::next_index))]
    pub(crate) fn next(self, j: u8, x: u8) -> Option<u8>
        requires { x ≤ self.group.rank }
        ensures { MatchOption result (next_index self.group.rank (levels self.group.kind self.group.rank) (last_index self.group.kind self.group.rank self.i) j x ≡ 0)
            (λ s. (s ≡ next_index self.group.rank (levels self.group.kind self.group.rank) (last_index self.group.kind self.group.rank self.i) j x) × (s ≢ 0)) }
    {
        let n = self.group.rank;
        if j < n {
            if x == n {
                return (j + 1 == self.turn).then_some(n);
            }
            return (x == j + 1).then_some(x);
        }
        if j < self.last && x + j + 1 == 2 * n {
            return Some(j + 1);
        }
        None
    }

    // The family whose left side is [i,2n-i] x, if there is one.
    #[tactic(auto, unfolding(rules::proofs::Scan::family_at_end))]
    fn family_at_end(self, x: u8) -> Option<u8>
        ensures { MatchOption result (family_at_end self.group.rank (scan.fork self.group.kind self.group.rank) self.i x ≡ 0)
            (λ f. (f ≡ family_at_end self.group.rank (scan.fork self.group.kind self.group.rank) self.i x) × (f ≢ 0)) }
    {
        if self.i == self.fork {
            if x == self.group.rank {
                return Some(6);
            }
            return (x == self.i + 1).then_some(7);
        }
        (x == self.i + 1).then_some(4)
    }

    // The family whose left side is [i,j] x, where x leaves the way, if there is one.
    #[tactic(auto, unfolding(rules::proofs::Scan::family_at))]
    pub(crate) fn family(self, j: u8, x: u8) -> Option<u8>
        requires { j ≤ 2 * self.group.rank }
        ensures { MatchOption result (family_at self.group.rank (scan.fork self.group.kind self.group.rank) self.i j x ≡ 0)
            (λ f. (f ≡ family_at self.group.rank (scan.fork self.group.kind self.group.rank) self.i j x) × (f ≢ 0)) }
    {
        let i = self.i;
        if j == i {
            if x == i {
                return Some(1);
            }
            return (i < x).then_some(2);
        }
        if i + j == 2 * self.group.rank {
            return self.family_at_end(x);
        }
        if x != i {
            return None;
        }
        if i == self.fork && j == self.group.rank {
            return Some(5);
        }
        Some(3)
    }
}

// The j that a rule of the family shows.
#[tactic(auto, unfolding(rules::proofs::Scan::shown_index))]
pub(crate) fn shown_index(family: u8, j: u8, x: u8) -> u8
    ensures { result ≡ shown_index family j x }
{
    match family {
        2 => x,
        3 => j,
        _ => 0,
    }
}

// The rule that fits at a place, if there is one.
pub(crate) fn fitting_rule(word: Word<'_>, place: usize) -> Option<Fitting>
    requires { place < length word.letters.now }
    ensures { result ≡ elim (first_fitting (rules word.entry.group.kind word.entry.group.rank) word.entry.letters.now place) [
      | none ↦ None
      | some x ↦ Some (record { family = x.family; i = x.i; j = x.j; left = length x.left })
    ] }
{
    let letters = word.letters;
    let i = letters[place];
    let way = Way::new(word.group, i);
    let start = place + 1;
    let end = letters.len();
    let mut j = i;
    for at in start..end {
        let x = letters[at];
        let Some(next) = way.next(j, x) else {
            let family = way.family(j, x)?;
            return Some(Fitting {
                family,
                i,
                j: shown_index(family, j, x),
                left: at + 1 - place,
            });
        };
        j = next;
    }
    None
}
