// The delay table of a kind and a rank: how many windows have each length, the longest window and its normal form.
//
// No public function has a `requires`: every input is checked, and what the call returns and writes is a definition
// of distribution/specs/Calls for every input, refused ones included. Kinds come as numbers and are
// checked here, as K2 and C5 promise.
#![tactic(auto)]

mod counting;
mod lengths;
mod longest;

ghost use Rattle.coxeter.specs.Kinds.{kind_of};
ghost use Rattle.distribution.specs.answers.Table.{as_table};
ghost use Rattle.distribution.specs.Calls.{TableYields, delay_table};

use counting::write_counts;
pub use coxeter::{Group, Refusal};
pub use distribution::TableLengths;
use lengths::greatest_length;
pub use lengths::tabled_group;
use longest::{write_form, write_longest};

// I24: writes how many windows have the length 0, 1, .. up to the greatest to the front of `counts`, the longest
// window to that of `entries` and its normal form to that of `letters`, and returns how many numbers, entries and
// letters that is. Checks 5, 6, 20, and 14 of all three before any is written.
pub fn delay_table(
    kind: u8,
    rank: u8,
    counts: &mut [u64],
    entries: &mut [i8],
    letters: &mut [u8],
) -> Result<TableLengths, Refusal>
    ensures { TableYields (delay_table kind rank counts.old entries.old letters.old)
        (as_table result) counts.new entries.new letters.new }
{
    let group = tabled_group(kind, rank)?;
    let m = group.lanes();
    let l = greatest_length(group);
    if counts.len() <= l || entries.len() < m || letters.len() < l {
        return Err(Refusal::OutputTooShort);
    }
    write_counts(group, counts);
    write_longest(group, entries);
    write_form(group, entries, letters);
    Ok(TableLengths {
        counts: l + 1,
        entries: m,
        letters: l,
    })
}
