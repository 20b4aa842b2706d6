// What a kind and a rank say of their table: whether there is one, and the greatest lengths.
ghost use Rattle.std.specs.Prelude.{◌≡◌, ◌≤◌, IfOk};
ghost use Rattle.coxeter.specs.Kinds.{kind_of};
ghost use Rattle.coxeter.specs.Refusals.{refusal_of};
ghost use Rattle.coxeter.specs.Length.{greatest_length};
ghost use Rattle.distribution.specs.Calls.{greatest_tabled, table_refusal};
ghost use Rattle.distribution.proofs.Products.{fewest, top};

use coxeter::{Group, Kind, Refusal};
use refusals::group_of;

fn greatest_tabled(kind: Kind) -> u8
    ensures { result ≡ greatest_tabled kind }
{
    match kind {
        Kind::A => 19,
        Kind::B | Kind::D => 16,
    }
}

// I33: the group of a kind and a rank that have a delay table, after checks 5, 6, 20.
pub fn tabled_group(kind: u8, rank: u8) -> Result<Group, Refusal>
    ensures refusal { refusal_of result ≡ table_refusal kind rank }
    ensures group { IfOk result (λ g. (g.kind ≡ kind_of kind) × (g.rank ≡ rank)) }
{
    let group = group_of(kind, rank)?;
    if greatest_tabled(group.kind) < group.rank {
        return Err(Refusal::NoDelayTable);
    }
    Ok(group)
}

// The greatest length of a window.
pub(crate) fn greatest_length(group: Group) -> usize
    ensures { result ≡ greatest_length group.kind group.rank }
{
    let n = group.rank as usize;
    match group.kind {
        Kind::A => n * (n + 1) / 2,
        Kind::B => n * n,
        Kind::D => n * (n - 1),
    }
}

// Larger sizes at the last level.
pub(crate) fn fewest_of(kind: Kind) -> usize
    ensures { result ≡ fewest kind }
{
    match kind {
        Kind::B => 0,
        Kind::A | Kind::D => 1,
    }
}

// The greatest length of a block with c greater sizes.
pub(crate) fn top_of(kind: Kind, c: usize) -> usize
    requires { c ≤ 64 }
    ensures { result ≡ top kind c }
{
    match kind {
        Kind::A => c,
        Kind::B => 2 * c + 1,
        Kind::D => 2 * c,
    }
}
