// The rules, one rewrite and demand 3: definitions in specs/, laws in proofs/, and the answer of the call. No function.
#![tactic(auto)]

// I19, G14: the rule used with the new word's length, or that none fits, or the refusal.
#[derive(Clone, Copy)]
pub enum Rewrite {
    Used {
        family: u8,
        i: u8,
        j: u8,
        length: usize,
    },
    NoneFits,
    Refused(u8),
}
