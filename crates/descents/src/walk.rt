// The walk through a word from its last letter to the first. A letter that makes the target shorter is kept, and
// the target steps back; the word has a part-list with the target's window exactly when the target ends straight.
ghost use Rattle.std.specs.Prelude.{◌≡◌, [], ◌≤◌, length};
ghost use Rattle.coxeter.specs.Windows.{identity};
ghost use Rattle.coxeter.specs.Checks.{WordOf, WindowOf};
ghost use Rattle.coxeter.specs.Calls.{front, same_window};
ghost use Rattle.shortest_words.specs.answers.Fallback.{as_fallback};
ghost use Rattle.shortest_words.proofs.FallbackWalk.{left_over, places_kept, marked};
ghost use Rattle.shortest_words.proofs.Verdicts.{Decided};

use crate::steps::take_descent;
use coxeter::{Group, Refusal};

// A letter that is not kept becomes 0, in place, since there is no second array. Returns how many are kept; `w`
// becomes what is left of the target.
fn keep_letters(group: Group, word: &mut [u8], w: &mut [i8]) -> usize
    requires word_of { WordOf group.rank word.old }
    requires window_of { WindowOf group.kind group.rank w.old }
    ensures { (result ≡ length (marked 0 word.new))
        × (marked 0 word.new ≡ places_kept group.kind group.rank word.old (length word.old) w.old [])
        × (w.new ≡ left_over group.kind group.rank word.old (length word.old) w.old) }
{
    let mut kept: usize = 0;
    for i in (0..word.len()).rev() {
        if take_descent(group, word[i] as usize, w) {
            kept += 1;
        } else {
            word[i] = 0;
        }
    }
    kept
}

fn is_identity(w: &[i8]) -> bool
    requires { length w.now ≤ 127 }
    ensures { result ≡ same_window w.now (identity (length w.now)) }
{
    for (i, x) in w.iter().enumerate() {
        if *x != (i + 1) as i8 {
            return false;
        }
    }
    true
}

// The places of the letters that were kept, written to the front of `places`; `at` counts them, and not the letters.
fn write_places(word: &[u8], places: &mut [u16])
    requires word_len_bound { length word.now ≤ 4096 }
    requires word_in_bounds { length (marked 0 word.now) ≤ length places.old }
    ensures { places.new ≡ front (marked 0 word.now) places.old }
{
    let mut at = 0;
    for (i, s) in word.iter().enumerate() {
        if *s != 0 {
            places[at] = i as u16;
            at += 1;
        }
    }
}

// The verdict on an accepted word and an accepted target, both used up, and the places. A yes with too few of them
// is refused.
pub(crate) fn decide(
    group: Group,
    word: &mut [u8],
    w: &mut [i8],
    places: &mut [u16],
) -> Result<Option<usize>, Refusal>
    requires word_of { WordOf group.rank word.old }
    requires window_of { WindowOf group.kind group.rank w.old }
    ensures { Decided group.kind group.rank word.old w.old places.old (as_fallback result) places.new }
{
    let kept = keep_letters(group, word, w);
    if !is_identity(w) {
        return Ok(None);
    }
    if places.len() < kept {
        return Err(Refusal::OutputTooShort);
    }
    write_places(word, places);
    Ok(Some(kept))
}
