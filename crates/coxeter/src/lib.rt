// Words and windows of the Coxeter groups of kinds A, B and D: definitions in specs/, laws in proofs/. The code has the
// types: kinds, groups, words, windows, refusals, lengths, and which of two words is better.
#![tactic(auto)]

ghost use Rattle.std.specs.Prelude.{◌≡◌, ◌+◌, ◌≤◌, MatchResult};
ghost use Rattle.coxeter.specs.Kinds.{kind_of, kind_number, lanes, least, greatest};
ghost use Rattle.coxeter.specs.Refusals.{number};
ghost use Rattle.coxeter.specs.Checks.{wrong_kind, check, WordOf, WindowOf};

// K2, D11: the three kinds of groups; no other can be named.
#[derive(Clone, Copy, Debug, PartialEq, Eq)]
pub enum Kind {
    A,
    B,
    D,
}

// K2, C5: the kind that a number stands for.
impl TryFrom<u8> for Kind {
    type Error = Refusal;

    ghost try_from_gives = { λ k r. MatchResult r (λ kind. kind_number kind ≡ k) (λ refusal. number refusal ≡ check 5 (wrong_kind k)) };

    fn try_from(k: u8) -> Result<Self, Refusal> {
        match k {
            1 => Ok(Kind::A),
            2 => Ok(Kind::B),
            3 => Ok(Kind::D),
            _ => Err(Refusal::UnknownKind),
        }
    }
}

impl Kind {
    // K2: the number of a kind.
    pub fn number(self) -> u8
        ensures { result ≡ kind_number self }
    {
        match self {
            Kind::A => 1,
            Kind::B => 2,
            Kind::D => 3,
        }
    }

    // K4, K5: the lowest rank of a kind.
    pub fn least_rank(self) -> u8
        ensures { result ≡ least self }
    {
        match self {
            Kind::A => 1,
            Kind::B => 2,
            Kind::D => 4,
        }
    }

    // K4: the highest rank of a kind.
    pub fn greatest_rank(self) -> u8
        ensures { result ≡ greatest self }
    {
        match self {
            Kind::A => 63,
            Kind::B | Kind::D => 64,
        }
    }
}

// K2, K4: a kind and a rank of it.
#[derive(Clone, Copy)]
pub struct Group {
    pub kind: Kind,
    pub rank: u8,
    ghost in_range: { (least kind ≤ rank) × (rank ≤ greatest kind) },
}

impl Group {
    // K3: how many lanes a group has, which is how many entries its windows have.
    pub fn lanes(self) -> usize
        ensures { result ≡ lanes self.kind self.rank }
    {
        let n = self.rank as usize;
        match self.kind {
            Kind::A => n + 1,
            Kind::B | Kind::D => n,
        }
    }
}

// W1, W2: a word of a group, which passed checks 7 and 8.
#[derive(Clone, Copy)]
pub struct Word<'a> {
    pub group: Group,
    pub letters: &'a [u8],
    ghost accepted: { WordOf group.rank letters.now },
}

// W5: a window of a group, which passed checks 9 to 11.
#[derive(Clone, Copy)]
pub struct Window<'a> {
    pub group: Group,
    pub entries: &'a [i8],
    ghost accepted: { WindowOf group.kind group.rank entries.now },
}

// CO3: why a call is refused: the check that fails. As a number it is the check's.
#[derive(Clone, Copy, Debug, PartialEq, Eq)]
pub enum Refusal {
    BookSize = 1,
    BookCount = 2,
    BookLayout = 3,
    NoSuchPreset = 4,
    UnknownKind = 5,
    RankOutOfRange = 6,
    WordTooLong = 7,
    WrongLetter = 8,
    WindowLength = 9,
    WrongEntry = 10,
    OddNegatives = 11,
    PlacePastEnd = 12,
    NewBookTooLong = 13,
    OutputTooShort = 14,
    ListTooShort = 15,
    StepAboveRank = 16,
    WrongLaneCount = 17,
    TooManyLanes = 18,
    OutOfReach = 19,
    NoDelayTable = 20,
    RetiredGroup = 21,
}

impl Refusal {
    // CO3: the number of a refusal. Not by `From`, whose member would say it in place of a clause.
    pub fn number(self) -> u8
        ensures { result ≡ number self }
    {
        self as u8
    }
}

// L2, L3, L4: a length as its three counts.
#[derive(Clone, Copy, Debug, PartialEq, Eq)]
pub struct LengthCounts {
    pub inversions: usize,
    pub negative_sum_pairs: usize,
    pub negatives: usize,
}

// I17: which of two words is the better one.
#[derive(Clone, Copy, Debug, PartialEq, Eq)]
pub enum Better {
    First,
    Second,
}
