// The delay table.
ghost use Rattle.std.specs.Prelude.{◌≡◌};
ghost use Rattle.c_api.specs.Calls.{delay_table_listed};

// I24: how many windows of a kind and a rank have each length, from 0 to the greatest, written to the front of
// `counts`; the longest window, written to that of `window`; its normal form, written to that of `form`. The length
// of each goes to the first three places of `lengths`. Returns the greatest length. Refusals 5, 6 and 20, then 14
// for any of the four.
#[unsafe(no_mangle)]
pub extern "C" fn winnathey_delay_table(
    kind: u32,
    rank: u32,
    counts: &mut [u64],
    window: &mut [i8],
    form: &mut [u8],
    lengths: &mut [u64],
) -> i64
    ensures { (result, ((counts.new, window.new, form.new), lengths.new))
        ≡ delay_table_listed kind rank counts.old window.old form.old lengths.old }
{
    c_api::tables::winnathey_delay_table(kind, rank, counts, window, form, lengths)
}
