// The records of a book, and what the editions differ in (B6, B7, B12 and B13 of the specification): the place of a
// record's letter count and of its letters, its lane count, and the ranges of its ranks.
ghost use Rattle.std.specs.Prelude.{◌≡◌, ◌+◌, ◌≤◌, ◌<◌, length, IfOk};
ghost use Rattle.std.proofs.lemmas.List.Edits.{sets};
ghost use Rattle.coxeter.specs.Kinds.{kind_of, kind_number, lanes};
ghost use Rattle.coxeter.specs.Refusals.{refusal_of};
ghost use Rattle.coxeter.specs.Checks.{RankOf};
ghost use Rattle.book_format.specs.declared.Edition.TheVariants.{First};
ghost use Rattle.book_format.specs.answers.Preset.{as_preset};
ghost use Rattle.book_format.specs.Books.{end_at, count_place, head_size, kind_at, rank_at, lanes_at, letter_count_at, letters_at, lane_byte};
ghost use Rattle.book_format.specs.Books.{greatest_in_book, book_rank_refusal, wrong_lane_count, retired};
ghost use Rattle.book_format.specs.Calls.{checked_record};
ghost use Rattle.book_format.specs.Conversion.{too_many_lanes, record_conversion_refusal};

use crate::numbers::two_at;
use book_format::{Edition, Preset};
use window::{Group, Kind, Refusal, accepted_letters, group_of};

// Where a record has its letter count.
pub(crate) fn count_place(edition: Edition) -> usize
    ensures { (result ≡ count_place edition) × (2 ≤ result) × (result ≤ 3) }
{
    match edition {
        Edition::First => 2,
        Edition::Second => 3,
    }
}

// How many bytes of a record stand before its letters.
pub(crate) fn head_size(edition: Edition) -> usize
    ensures { (result ≡ head_size edition) × (4 ≤ result) × (result ≤ 5) }
{
    count_place(edition) + 2
}

// B12: the greatest rank of a record of the first edition.
fn greatest_in_first(kind: Kind) -> u8
    ensures { result ≡ greatest_in_book First kind }
{
    match kind {
        Kind::A => 31,
        Kind::B | Kind::D => 32,
    }
}

// The group of the kind and the rank of a record, after C5, and C6 by the ranks of B12 and B13. The second edition takes
// every rank that the calls take.
pub(crate) fn book_group(edition: Edition, kind: u8, rank: u8) -> Result<Group, Refusal>
    ensures refusal { refusal_of result ≡ book_rank_refusal edition kind rank }
    ensures group { IfOk result (λ g. (kind_number g.kind ≡ kind) × (g.rank ≡ rank)) }
{
    let group = group_of(kind, rank)?;
    match edition {
        Edition::First => {
            if greatest_in_first(group.kind) < rank {
                return Err(Refusal::RankOutOfRange);
            }
            Ok(group)
        }
        Edition::Second => Ok(group),
    }
}

// C21.
pub(crate) fn is_retired(group: Group) -> bool
    ensures { result ≡ retired (kind_number group.kind) group.rank }
{
    match group.kind {
        Kind::A => group.rank == 1,
        Kind::B | Kind::D => false,
    }
}

// B21: a lane count written at p, if the edition has one.
pub(crate) fn put_lanes(edition: Edition, lanes: u8, out: &mut [u8], p: usize)
    requires { p < length out.old }
    ensures { out.new ≡ sets out.old p (lane_byte edition lanes) }
{
    match edition {
        Edition::First => {}
        Edition::Second => {
            out[p] = lanes;
        }
    }
}

// The record at byte `start`, which lies wholly within the book.
#[derive(Clone, Copy)]
pub(crate) struct Record<'a> {
    pub(crate) edition: Edition,
    pub(crate) book: &'a [u8],
    pub(crate) start: usize,
    pub(crate) ghost within: { end_at edition book.now start ≤ length book.now },
    pub(crate) ghost short: { length book.now ≤ 65535 },
}

impl<'a> Record<'a> {
    pub(crate) fn kind(&self) -> u8
        ensures { result ≡ kind_at self.now.book.now self.now.start }
    {
        self.book[self.start]
    }

    pub(crate) fn rank(&self) -> u8
        ensures { result ≡ rank_at self.now.book.now self.now.start }
    {
        self.book[self.start + 1]
    }

    // How many letters it has.
    pub(crate) fn letter_count(&self) -> usize
        ensures { result ≡ letter_count_at self.now.edition self.now.book.now self.now.start }
    {
        two_at(self.book, self.start + count_place(self.edition))
    }

    // Where its letters begin.
    fn letters_start(&self) -> usize
        ensures { result ≡ self.now.start + head_size self.now.edition }
    {
        self.start + head_size(self.edition)
    }

    pub(crate) fn letters(&self) -> &'a [u8]
        ensures { result.now ≡ letters_at self.now.edition self.now.book.now self.now.start }
    {
        let start = self.letters_start();
        &self.book[start..start + self.letter_count()]
    }

    // C17, by the lane count m of its kind and rank. The first edition has no lane count that could be wrong.
    fn has_wrong_lanes(&self, m: usize) -> bool
        requires { m ≡ lanes (kind_of (kind_at self.now.book.now self.now.start)) (rank_at self.now.book.now self.now.start) }
        ensures { result ≡ wrong_lane_count self.now.edition self.now.book.now self.now.start }
    {
        match self.edition {
            Edition::First => false,
            Edition::Second => self.book[self.start + 2] as usize != m,
        }
    }

    // C18. Going to the second edition no record has too many lanes.
    pub(crate) fn has_too_many_lanes(&self) -> bool
        ensures { result ≡ too_many_lanes self.now.edition self.now.book.now self.now.start }
    {
        match self.edition {
            Edition::First => false,
            Edition::Second => 32 < self.book[self.start + 2],
        }
    }

    // The lane count of a record that passed its checks. The second edition has a byte for it. In the first it is
    // computed from the kind and the rank; they passed as well, so that no refusal is reached.
    pub(crate) fn lanes(&self) -> u8
        requires { RankOf (kind_at self.now.book.now self.now.start) (rank_at self.now.book.now self.now.start) }
        ensures { result ≡ lanes_at self.now.edition self.now.book.now self.now.start }
    {
        match self.edition {
            Edition::First => match group_of(self.kind(), self.rank()) {
                Ok(group) => group.lanes() as u8,
                Err(_) => unreachable!(),
            },
            Edition::Second => self.book[self.start + 2],
        }
    }

    // C5 to C8 and C17.
    pub(crate) fn check(&self) -> Result<Preset, Refusal>
        ensures { as_preset result ≡ checked_record self.now.edition self.now.book.now self.now.start }
    {
        let kind = self.kind();
        let rank = self.rank();
        let group = book_group(self.edition, kind, rank)?;
        if self.has_wrong_lanes(group.lanes()) {
            return Err(Refusal::WrongLaneCount);
        }
        accepted_letters(group, self.letters())?;
        Ok(Preset {
            group,
            start: self.letters_start(),
            length: self.letter_count(),
        })
    }

    // C5 to C8, C17 and C18.
    pub(crate) fn check_conversion(&self) -> Result<(), Refusal>
        ensures { refusal_of result ≡ record_conversion_refusal self.now.edition self.now.book.now self.now.start }
    {
        self.check()?;
        if self.has_too_many_lanes() {
            return Err(Refusal::TooManyLanes);
        }
        Ok(())
    }
}
