// Two windows of one group.
ghost use Rattle.std.specs.Prelude.{◌≡◌, IfOk};
ghost use Rattle.coxeter.specs.Kinds.{kind_of};
ghost use Rattle.coxeter.specs.Refusals.{refusal_of};
ghost use Rattle.coxeter.specs.Checks.{◌then◌, rank_refusal, window_refusal, WindowOf};

use coxeter::{Group, Refusal};
use refusals::accepted_windows;

// Two windows of one group, which passed checks 9 to 11.
#[derive(Clone, Copy)]
pub struct Windows<'a> {
    pub group: Group,
    pub first: &'a [i8],
    pub second: &'a [i8],
    ghost first_accepted: { WindowOf group.kind group.rank first.now },
    ghost second_accepted: { WindowOf group.kind group.rank second.now },
}

// I33, CO4: two windows of one kind and rank, after checks 5, 6 and 9 to 11: kind and rank once, then the first window,
// then the second.
pub(crate) fn accepted_pair<'a>(
    kind: u8,
    rank: u8,
    u: &'a [i8],
    v: &'a [i8],
) -> Result<Windows<'a>, Refusal>
    ensures refusal { refusal_of result ≡ (rank_refusal kind rank then window_refusal (kind_of kind) rank u.now
        then window_refusal (kind_of kind) rank v.now) }
    ensures windows { IfOk result (λ p. (p.group.kind ≡ kind_of kind) × (p.group.rank ≡ rank)
        × (p.first ≡ u.entry) × (p.second ≡ v.entry)) }
{
    let (first, second) = accepted_windows(kind, rank, u, v)?;
    Ok(Windows {
        group: first.group,
        first: first.entries,
        second: second.entries,
    })
}
