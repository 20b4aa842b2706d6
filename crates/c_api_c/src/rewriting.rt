// One rewrite at a named place.
ghost use Rattle.std.specs.Prelude.{◌≡◌};
ghost use Rattle.c_api.specs.Calls.{rewriting};

// I19, IC4: one rewrite of the word at the place, which counts from 0. The new word goes to the front of `out`, and
// the rule's family, i and j to the first three bytes of `rule`. Returns the new length, or -100 if none fits.
// Refusals 5 to 8, 12, and 14, which concerns both outputs.
#[unsafe(no_mangle)]
pub extern "C" fn winnathey_rewrite(
    kind: u32,
    rank: u32,
    word: &[u8],
    place: usize,
    out: &mut [u8],
    rule: &mut [u8],
) -> i64
    ensures { (result, (out.new, rule.new)) ≡ rewriting kind rank word.now place out.old rule.old }
{
    c_api::rewriting::winnathey_rewrite(kind, rank, word, place, out, rule)
}
