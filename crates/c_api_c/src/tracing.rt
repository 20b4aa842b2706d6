// The rewriting to its end.
ghost use Rattle.std.specs.Prelude.{◌≡◌};
ghost use Rattle.traces.specs.Traces.{number_of_steps};
ghost use Rattle.c_api.specs.Calls.{number_of, rewriting_to_end_listed};

// I21: how many steps `winnathey_rewrite_to_end` takes: so many places each of its lists must have. For a word of L
// letters that is at most L (L - 1) / 2 (T25). Refusals 5 to 8.
#[unsafe(no_mangle)]
pub extern "C" fn winnathey_rewrite_steps(kind: u32, rank: u32, word: &[u8]) -> i64
    ensures { result ≡ number_of (number_of_steps kind rank word.now) }
{
    c_api::tracing::winnathey_rewrite_steps(kind, rank, word)
}

// I20: rewrites the word always at the lowest place where a rule fits, until none fits. The family, the place and
// the length left of each step go to the fronts of the three lists, the final word, which is the normal form, to
// that of `out`, and its length to the first place of `written`. Returns the number of steps. Refusals 5 to 8, 15
// for a list with too few places, and 14 for `out` or `written`.
#[unsafe(no_mangle)]
pub extern "C" fn winnathey_rewrite_to_end(
    kind: u32,
    rank: u32,
    word: &[u8],
    families: &mut [u8],
    places: &mut [u16],
    lengths: &mut [u16],
    out: &mut [u8],
    written: &mut [u64],
) -> i64
    ensures { (result, ((families.new, places.new, lengths.new, out.new), written.new))
        ≡ rewriting_to_end_listed kind rank word.now families.old places.old lengths.old
        out.old written.old }
{
    c_api::tracing::winnathey_rewrite_to_end(
        kind, rank, word, families, places, lengths, out, written,
    )
}
