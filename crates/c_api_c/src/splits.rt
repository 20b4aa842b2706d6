// Words split by allowed steps.
ghost use Rattle.std.specs.Prelude.{◌≡◌};
ghost use Rattle.c_api.specs.Calls.{splitting_listed};

// I22: a word split by the set of allowed steps, bit 0 for step 1: the first word is over allowed steps, the
// second's window has no shortest word that begins with one. Each is a normal form, written to the front of its
// output, and the length of each goes to the first two places of `lengths`. Returns the sum of the two lengths.
// Refusals 5, 6, 16, 7 and 8, then 14 for any of the three.
#[unsafe(no_mangle)]
pub extern "C" fn winnathey_split(
    kind: u32,
    rank: u32,
    allowed: u64,
    word: &[u8],
    first: &mut [u8],
    second: &mut [u8],
    lengths: &mut [u64],
) -> i64
    ensures { (result, ((first.new, second.new), lengths.new))
        ≡ splitting_listed kind rank allowed word.now first.old second.old lengths.old }
{
    c_api::splits::winnathey_split(kind, rank, allowed, word, first, second, lengths)
}
