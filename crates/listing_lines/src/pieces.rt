// The next piece of a listing. The book is opened once for each run of its presets. A line is made in a buffer of its
// own, where every line has room, and copied if it fits whole.
ghost use Rattle.std.specs.Prelude.{◌≡◌, ◌-◌, ◌≤◌, length, map};
ghost use Rattle.coxeter.specs.Kinds.{up};
ghost use Rattle.coxeter.specs.answers.Answer.{as_answer};
ghost use Rattle.coxeter.specs.Calls.{Yields, writes};
ghost use Rattle.coxeter.proofs.Lists.{Stored};
ghost use Rattle.book_format.specs.declared.Edition.{Edition};
ghost use Rattle.book_format.specs.answers.Opened.{as_opened};
ghost use Rattle.book_format.specs.answers.Preset.{as_preset};
ghost use Rattle.book_format.specs.Calls.{checked_preset};
ghost use Rattle.listing_text.specs.Text.{refused_book_line};
ghost use Rattle.listing_text.specs.Calls.{line_count_by, first_line, next_piece};
ghost use Rattle.listing_text.proofs.Answered.{line_from};

use crate::lines::put_labelled;
use crate::numbers::put_bytes;
use crate::presets::put_preset;
use book::{Edition, Preset, Run, read_run};
use listing_text::Piece;
use window::Refusal;

// How many lines the listing has, by what opening the book returned.
#[tactic(auto, unfolding(listing_text::specs::Calls::line_count_by))]
fn line_count(opened: Result<usize, Refusal>) -> usize
    requires { line_count_by (as_opened opened) ≤ 65536 }
    ensures { result ≡ line_count_by (as_opened opened) }
{
    opened.map_or(1, |count| count + 1)
}

// Line 0: `presets 2` or `book refused 1`.
#[tactic(auto, unfolding(listing_text::specs::Calls::first_line, listing_text::specs::Text::count_line, listing_text::specs::Text::refused_book_line, listing_text::specs::Text::refused))]
fn put_first(opened: Result<usize, Refusal>, out: &mut [u8]) -> usize
    requires { length (first_line (as_opened opened)) ≤ length out.old }
    ensures { Stored out.old 0 (first_line (as_opened opened)) out.new result }
{
    match opened {
        Ok(count) => put_labelled(out, 0, b"presets ", count),
        Err(refusal) => put_labelled(out, 0, b"book refused ", refusal.number() as usize),
    }
}

// Line i, by what opening the book and reading the preset of the line returned, in whichever edition.
fn put_nth(
    book: &[u8],
    opened: Result<usize, Refusal>,
    i: usize,
    answer: Result<Preset, Refusal>,
    out: &mut [u8],
) -> usize
    requires { (ed : Edition) × ((as_preset answer ≡ checked_preset ed book.now (i - 1))
        × (length (line_from book.now (as_opened opened) i (as_preset answer)) ≤ length out.old)) }
    ensures { Stored out.old 0 (line_from book.now (as_opened opened) i (as_preset answer)) out.new result }
{
    if i == 0 {
        return put_first(opened, out);
    }
    put_preset(book, i - 1, answer, out)
}

// The preset of line i; line 0, which has none, gets that of line 1. A preset past the current run is read with a new
// run, which becomes the current one.
fn preset_of(run: &mut Run, edition: Edition, book: &[u8], i: usize) -> Result<Preset, Refusal>
    requires begins { run.old.first ≤ i - 1 }
    requires presets { map as_preset run.old.presets ≡ map (checked_preset edition book.now) (up run.old.first 128) }
    ensures begins { run.new.first ≤ i - 1 }
    ensures presets { map as_preset run.new.presets ≡ map (checked_preset edition book.now) (up run.new.first 128) }
    ensures answer { as_preset result ≡ checked_preset edition book.now (i - 1) }
{
    let number = i.saturating_sub(1);
    if 128 <= number - run.first {
        *run = read_run(edition, book, number);
    }
    run.presets[number - run.first]
}

// P11: writes the line of a refused book, such as `book refused 13`, to the front of `out` and returns its length. The
// number may be any, as before there were refusals by name. Check 14.
pub fn refused_book(refusal: u8, out: &mut [u8]) -> Result<usize, Refusal>
    ensures { Yields (writes 0 (refused_book_line refusal) out.old) (as_answer result) out.new }
{
    let mut line = io::buffer();
    let size = put_labelled(&mut line, 0, b"book refused ", refusal as usize);
    if out.len() < size {
        return Err(Refusal::OutputTooShort);
    }
    Ok(put_bytes(out, 0, &line[..size]))
}

// I32: the next piece of the listing of a book, from line `first` on: as many lines as fit whole in the buffer, at
// its front. Line 0 is the first, line i + 1 that of preset i. Returns the line after the piece, where it ends, and
// how many lines are left. A buffer of 16,896 bytes has room for any line.
pub fn next_piece(edition: Edition, book: &[u8], first: usize, out: &mut [u8]) -> Piece
    ensures { (result ≡ (next_piece edition book.now first out.old).answer)
        × (out.new ≡ (next_piece edition book.now first out.old).bytes) }
{
    let mut line = io::large_buffer();
    let mut run = read_run(edition, book, first.saturating_sub(1));
    let opened = run.opened;
    let count = line_count(opened);
    let mut end = 0;
    for next in first..count {
        let answer = preset_of(&mut run, edition, book, next);
        let size = put_nth(book, opened, next, answer, &mut line);
        if out.len() - end < size {
            let left = count - next;
            return Piece { next, end, left };
        }
        end = put_bytes(out, end, &line[..size]);
    }
    let next = first.max(count);
    Piece { next, end, left: 0 }
}
