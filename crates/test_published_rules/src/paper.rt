// The rules of source document 001, section 2.
ghost use Rattle.std.specs.Prelude.{◌≤◌};

use crate::sides::{Rule, Word, step};

// CP(4) in the paper's order: the left side and the right side of each rule, in the paper's generators.
const CP4: [[&[u8]; 2]; 16] = [
    [&[1, 1], &[]],
    [&[2, 2], &[]],
    [&[3, 3], &[]],
    [&[4, 4], &[]],
    [&[2, 1], &[1, 2]],
    [&[4, 1], &[1, 4]],
    [&[4, 2], &[2, 4]],
    [&[3, 2, 3], &[2, 3, 2]],
    [&[3, 1, 3], &[1, 3, 1]],
    [&[4, 3, 4], &[3, 4, 3]],
    [&[3, 1, 2, 3, 1], &[2, 3, 1, 2, 3]],
    [&[3, 1, 2, 3, 2], &[1, 3, 1, 2, 3]],
    [&[4, 3, 1, 4], &[3, 4, 3, 1]],
    [&[4, 3, 2, 4], &[3, 4, 3, 2]],
    [&[4, 3, 1, 2, 4], &[3, 4, 3, 1, 2]],
    [&[4, 3, 1, 2, 3, 4, 3], &[3, 4, 3, 1, 2, 3, 4]],
];

// psi_j of level m: down from x_m, as far as x_3, and then up from x_1; but psi_m ends in x_2.
fn psi(n: u8, m: u8, j: u8) -> Word
    requires { (n ≤ 64) × (5 ≤ m) × (m ≤ n) × (j ≤ 127) }
{
    let i = step(n, m);
    if j + 1 < m {
        return Word {
            i,
            up: j,
            turn: 0,
            down: 0,
        };
    }
    let up = m - 2;
    if j == m {
        return Word {
            i,
            up,
            turn: step(n, 2),
            down: 1,
        };
    }
    Word {
        i,
        up,
        turn: step(n, 1),
        down: 1 + j.saturating_sub(m),
    }
}

// psi_j x_last -> x_first psi_j, or psi_j x_last -> empty if there is no `first`.
fn psi_rule(n: u8, m: u8, j: u8, last: u8, first: Option<u8>) -> Rule
    requires { (n ≤ 64) × (5 ≤ m) × (m ≤ n) × (j ≤ 127) }
{
    Rule::Moved {
        w: psi(n, m, j),
        last: step(n, last),
        first: first.map(|x| step(n, x)),
    }
}

// Rule k of a type at level m of CP(n). Level 4 is CP(4), as type 0; a higher level is what CP(m) adds to CP(m -
// 1), of the types I to IV.
pub(crate) fn rule(n: u8, m: u8, class: u8, k: u8) -> Option<Rule>
    requires { (n ≤ 64) × (k ≤ 127) }
{
    if m == 4 && class == 0 && k < 16 {
        let [left, right] = CP4[k as usize];
        return Some(Rule::Small { n, left, right });
    }
    if m < 5 || n < m {
        return None;
    }
    match (class, k) {
        (1, 0) => Some(psi_rule(n, m, 1, m, None)),
        (2, 1..) if k <= m - 2 => Some(psi_rule(n, m, 1, k, Some(k))),
        (3, 2..) if k <= 2 * m - 3 => Some(psi_rule(n, m, k, m, Some(m - 1))),
        (4, 0) => Some(psi_rule(n, m, 2 * m - 1, m - 1, Some(m - 1))),
        _ => None,
    }
}
