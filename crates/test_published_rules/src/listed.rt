// The rules of kind D (R2, R4, R7 and R9 to R12 of the specification).
ghost use Rattle.std.specs.Prelude.{◌≤◌};

use crate::sides::{Rule, Word, one_letter};

// R4.
fn is_commuting(n: u8, i: u8, j: u8) -> bool
    requires { (i ≤ n) × (n ≤ 64) }
{
    if j == n {
        return i + 1 == n || i + 3 <= n;
    }
    i + 2 <= j && j < n
}

// R7.
fn is_braid(n: u8, i: u8, j: u8) -> bool
    requires { (i ≤ n) × (n ≤ 64) × (j ≤ 127) }
{
    if i + 3 <= n {
        return i < j && i + j + 2 <= 2 * n;
    }
    i + 2 == n && j + 1 == n
}

// [i,j] last -> first [i,j].
fn block_rule(n: u8, i: u8, j: u8, last: u8, first: u8) -> Rule
    requires { (4 ≤ n) × (n ≤ 64) × (j ≤ 128) }
{
    let w = if j < n {
        Word {
            i,
            up: (j + 1).wrapping_sub(i),
            turn: 0,
            down: 0,
        }
    } else {
        Word {
            i,
            up: (n - 1).wrapping_sub(i),
            turn: n,
            down: j + 1 - n,
        }
    };
    Rule::Moved {
        w,
        last,
        first: Some(first),
    }
}

// The family's rule with this i and j.
pub(crate) fn rule(n: u8, family: u8, i: u8, j: u8) -> Option<Rule>
    requires { (4 ≤ n) × (n ≤ 64) }
{
    if i == 0 || n < i || 127 < j {
        return None;
    }
    let w = one_letter(i);
    match (family, j) {
        (1, 0) => Some(Rule::Moved {
            w,
            last: i,
            first: None,
        }),
        (2, _) if is_commuting(n, i, j) => Some(Rule::Moved {
            w,
            last: j,
            first: Some(j),
        }),
        (3, _) if is_braid(n, i, j) => Some(block_rule(n, i, j, i, i + 1)),
        (4, 0) if i + 3 <= n => Some(block_rule(n, i, 2 * n - i, i + 1, i + 1)),
        (5, 0) if i + 2 == n => Some(block_rule(n, i, n, i, n)),
        (6, 0) if i + 2 == n => Some(block_rule(n, i, n + 2, n, n - 1)),
        (7, 0) if i + 2 == n => Some(block_rule(n, i, n + 2, n - 1, n)),
        _ => None,
    }
}
