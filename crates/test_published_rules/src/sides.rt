// Rules of kind D and their sides, in the specification's steps.
ghost use Rattle.std.specs.Prelude.{◌≡◌, length};

use std::array;

// A word of steps that goes up from i, `up` steps, and then down from `turn`, `down` steps.
#[derive(Clone, Copy)]
pub(crate) struct Word {
    pub(crate) i: u8,
    pub(crate) up: u8,
    pub(crate) turn: u8,
    pub(crate) down: u8,
}

#[derive(Clone, Copy)]
pub(crate) enum Rule {
    // W last -> first W, or W last -> empty if there is no `first`.
    Moved {
        w: Word,
        last: u8,
        first: Option<u8>,
    },
    // A rule of CP(4) at rank n, in the paper's generators.
    Small {
        n: u8,
        left: &'static [u8],
        right: &'static [u8],
    },
}

// R20: source document 001's generator k is step n + 1 - k, and the other way round.
pub(crate) fn step(n: u8, k: u8) -> u8 {
    n.wrapping_add(1).saturating_sub(k)
}

// The word of one letter.
pub(crate) fn one_letter(i: u8) -> Word {
    Word {
        i,
        up: 1,
        turn: 0,
        down: 0,
    }
}

impl Word {
    // The step at a place, if the word is as long.
    fn at(self, place: u8) -> Option<u8> {
        if place < self.up {
            return Some(self.i.wrapping_add(place));
        }
        let below = place - self.up;
        (below < self.down).then_some(self.turn.wrapping_sub(below))
    }
}

// The step at a place of a side in the paper's generators, if the side is as long.
fn small_at(n: u8, side: &[u8], place: u8) -> Option<u8> {
    side.get(place as usize).map(|k| step(n, *k))
}

impl Rule {
    // The step at a place of the left side, if that is as long.
    pub(crate) fn left(self, place: u8) -> Option<u8> {
        match self {
            Rule::Moved { w, last, .. } => {
                if place == w.up.wrapping_add(w.down) {
                    return Some(last);
                }
                w.at(place)
            }
            Rule::Small { n, left, .. } => small_at(n, left, place),
        }
    }

    // The same of the right side.
    pub(crate) fn right(self, place: u8) -> Option<u8> {
        match self {
            Rule::Moved { w, first, .. } => {
                if place == 0 {
                    return first;
                }
                first.and_then(|_| w.at(place - 1))
            }
            Rule::Small { n, right, .. } => small_at(n, right, place),
        }
    }

    // The left side, with zeros behind it.
    pub(crate) fn left_side(self) -> [u8; 128]
        ensures { 128 ≡ length result }
    {
        array::from_fn(|place| self.left(place as u8).unwrap_or(0))
    }

    pub(crate) fn right_side(self) -> [u8; 128]
        ensures { 128 ≡ length result }
    {
        array::from_fn(|place| self.right(place as u8).unwrap_or(0))
    }

    pub(crate) fn has_sides_of(self, other: Rule) -> bool {
        (0..128).all(|t| self.left(t) == other.left(t) && self.right(t) == other.right(t))
    }
}
