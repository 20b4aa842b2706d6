// Sets of allowed steps in a 64-bit number, one bit a step, bit 0 for step 1 (S1 of the specification): a bit is
// asked for, and the bits above the rank are checked.
ghost use Rattle.std.specs.Prelude.{◌≡◌, ◌≤◌, IfOk};
ghost use Rattle.coxeter.specs.Kinds.{kind_of};
ghost use Rattle.coxeter.specs.Refusals.{refusal_of};
ghost use Rattle.shortest_words.specs.Allowed.{allows, set_refusal};

use coxeter::{Group, Refusal};
use refusals::group_of;

// Whether step s is allowed.
pub(crate) fn is_allowed(allowed: u64, s: usize) -> bool
    requires { (1 ≤ s) × (s ≤ 64) }
    ensures { result ≡ allows allowed s }
{
    (allowed >> (s - 1)) % 2 == 1
}

// C5, C6, C16: the group of a kind and a rank with a set of its steps. At rank 64 every bit is a step, and no shift by 64
// is made.
pub(crate) fn group_with_set(kind: u8, rank: u8, allowed: u64) -> Result<Group, Refusal>
    ensures refusal { refusal_of result ≡ set_refusal kind rank allowed }
    ensures group { IfOk result (λ g. (g.kind ≡ kind_of kind) × (g.rank ≡ rank)) }
{
    let group = group_of(kind, rank)?;
    if rank < 64 && allowed >> rank != 0 {
        return Err(Refusal::StepAboveRank);
    }
    Ok(group)
}
