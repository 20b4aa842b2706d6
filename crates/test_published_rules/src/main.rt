// R20: checks the rules that source document 001 publishes for D by the rewriter, and looks for each rule for D of
// the specification among them. Prints how many rules hold.
#![tactic(auto)]

mod listed;
mod paper;
mod sides;

ghost use Rattle.std.specs.Prelude.{◌≡◌, ◌≢◌, ◌≤◌, ◌<◌, ℕ, slice_index};

use rewriter::Rewrite;
use sides::{Rule, one_letter, step};
use std::io;

// How many letters a side has: the place of its first zero, or 128 if there is none.
fn size_of(side: &[u8; 128]) -> usize
    ensures within { result ≤ 128 }
    ensures before { (k : ℕ) → k < result → slice_index side.now k ≢ 0 }
    ensures found { result < 128 → slice_index side.now result ≡ 0 }
{
    side.iter().position(|&x| x == 0).unwrap_or(128)
}

// Whether there is the other rule, and it has the rule's sides.
fn has_sides(rule: Rule, other: Option<Rule>) -> bool {
    other.is_some_and(|other| rule.has_sides_of(other))
}

// Whether the answer names the specification's rule of these sides, and the output holds the right side and nothing
// behind it.
fn is_used(answer: Rewrite, n: u8, rule: Rule, out: &[u8]) -> bool
    requires { (4 ≤ n) × (n ≤ 64) }
{
    let Rewrite::Used {
        family,
        i,
        j,
        length,
    } = answer
    else {
        return false;
    };
    let right = rule.right_side();
    length == size_of(&right)
        && out == right.as_slice()
        && has_sides(rule, listed::rule(n, family, i, j))
}

// Whether one rewrite at place 0 makes the right side of the left side.
fn is_rewritten(n: u8, rule: Rule) -> bool
    requires { (4 ≤ n) × (n ≤ 64) }
{
    let left = rule.left_side();
    let mut out = [0; 128];
    let k = size_of(&left);
    let answer = rewriter::rewrite_at(3, n, &left[0..k], 0, &mut out);
    is_used(answer, n, rule, &out)
}

// Whether a rule at level m of CP(n) has the rule's sides.
fn is_at_level(n: u8, m: u8, rule: Rule) -> bool
    requires { n ≤ 64 }
{
    (0..5).any(|class| (0..128).any(|k| has_sides(rule, paper::rule(n, m, class, k))))
}

// Whether a rule of CP(n) has the rule's sides. At a level m above 4 the left sides begin with x_m.
fn is_published(n: u8, rule: Rule) -> bool
    requires { n ≤ 64 }
{
    rule.left(0)
        .is_some_and(|first| is_at_level(n, step(n, first).max(4), rule))
}

// Whether the paper has a rule of this level, type and number, and the rewriter uses it.
fn is_paper_rule_used(n: u8, m: u8, class: u8, k: u8) -> bool
    requires { (4 ≤ n) × (n ≤ 64) × (k ≤ 127) }
{
    paper::rule(n, m, class, k).is_some_and(|rule| is_rewritten(n, rule))
}

// Whether the specification has a rule of this i, family and j, and the paper has it.
fn is_listed_rule_published(n: u8, i: u8, family: u8, j: u8) -> bool
    requires { (4 ≤ n) × (n ≤ 64) }
{
    listed::rule(n, family, i, j).is_some_and(|rule| is_published(n, rule))
}

// How many rules hold at the ranks from `from` to `to`, of all a and c below 128 and b below 8.
fn count<F: Fn(u8, u8, u8, u8) -> bool>(holds: F, from: u8, to: u8) -> u64
    requires ranks { (4 ≤ from) × (to ≤ 64) }
    requires holds { (n a b c : ℕ) → 4 ≤ n → n ≤ 64 → c ≤ 127 → F.pre holds n a b c }
{
    let mut held = 0;
    for n in from..=to {
        for a in 0..128 {
            for b in 0..8 {
                for c in 0..128 {
                    held += holds(n, a, b, c) as u64;
                }
            }
        }
    }
    held
}

// Wrong on purpose: 1 3 becomes 3 1, and not 4 1. A count above 0 would say that a test here cannot fail.
fn wrong() -> u64 {
    let rule = Rule::Moved {
        w: one_letter(1),
        last: 3,
        first: Some(4),
    };
    is_rewritten(5, rule) as u64 + is_published(5, rule) as u64
}

fn report(rt: &impl Print, name: &str, held: u64) -> io::Result<()> {
    println!(rt; "{name}{held} rules")
}

fn main(rt: HostRuntime) -> io::Result<()> {
    report(&rt, "CP(4), rewritten: ", count(is_paper_rule_used, 4, 4))?;
    report(
        &rt,
        "CP(n), rewritten, n = 4 to 64: ",
        count(is_paper_rule_used, 4, 64),
    )?;
    report(
        &rt,
        "D rules, found in CP(n), n = 4 to 64: ",
        count(is_listed_rule_published, 4, 64),
    )?;
    report(&rt, "Wrong on purpose: ", wrong())
}
