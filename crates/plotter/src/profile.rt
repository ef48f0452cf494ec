// The profile of a book, as bytes in a lent buffer.
ghost use Rattle.std.specs.Prelude.{◌≡◌, ◌∷◌, map, ◌+◌, ◌*◌, ◌≤◌, length};
ghost use Rattle.adjust.specs.code.Bounds.{Fits};
ghost use Rattle.columns.specs.Texts.{joined};
ghost use Rattle.records.specs.Refusals.{number_of};
ghost use Rattle.rules.specs.LineState.{state_of};
ghost use Rattle.fieldbook.specs.code.Printed.{Puts};
ghost use Rattle.plotter.specs.Profile.{mark_bytes, marks_after, profile_refusal, Profiles, buffer_after};
ghost use Rattle.plotter.specs.code.Reached.{Reached};

use super::Mark;
use adjust::Section;
use records::{Refusal, number_of};
use rules::Book;
use rules::closing::check_figures;

// 20, or 56 where the line is not closed or a buffer of so many bytes is too short.
fn check_profile(b: &Book, room: usize) -> Result<(), Refusal>
    ensures { number_of result ≡ profile_refusal (state_of b.now) room }
{
    let code = number_of(check_figures(b));
    if code == 20 {
        return Err(Refusal::Broken);
    }
    if code != 0 || room / 16 <= b.sections.count {
        return Err(Refusal::Profile);
    }
    Ok(())
}

// A point's two floats, distance first, each lowest byte first: how many bytes.
fn put_mark(buf: &mut [u8], mark: Mark) -> usize
    requires { (16 ≤ length buf.old) × Reached 64 mark }
    ensures { Puts (mark_bytes mark) buf.old buf.new result }
{
    let pair = mark.pair();
    buf[..8].copy_from_slice(&pair.distance.to_bits().to_le_bytes());
    buf[8..16].copy_from_slice(&pair.height.to_bits().to_le_bytes());
    16
}

// The points at the ends of the sections that follow a point: how many bytes.
fn put_sections(buf: &mut [u8], start: Mark, sections: &[Section]) -> usize
    requires { (16 * length sections.now ≤ length buf.old) × (Fits sections.now × Reached 0 start) }
    ensures { Puts (joined (map mark_bytes (marks_after start sections.now))) buf.old buf.new result }
{
    let mut mark = start;
    // A running index: the next part of the buffer begins where the last one ended.
    let mut at = 0;
    for x in sections {
        mark = mark.next(x);
        at += put_mark(&mut buf[at..], mark);
    }
    at
}

// The start and a point for each section: how many bytes.
#[tactic(auto, using(crate::proofs::Written::mark_long, crate::proofs::Written::marks_long))]
fn put_points(buf: &mut [u8], start: Mark, sections: &[Section]) -> usize
    requires { (16 * (length sections.now + 1) ≤ length buf.old) × (Fits sections.now × Reached 0 start) }
    ensures { Puts (joined (map mark_bytes (start ∷ marks_after start sections.now))) buf.old buf.new result }
{
    let at = put_mark(buf, start);
    at + put_sections(&mut buf[at..], start, sections)
}

// The profile of a closed book into a lent buffer: how many bytes. Bytes beyond them keep their values.
pub fn put_profile(b: &Book, buf: &mut [u8]) -> Result<usize, Refusal>
    ensures profiles { Profiles (state_of b.now) (length buf.old) result }
    ensures buf_after { buf.new ≡ buffer_after (state_of b.now) buf.old }
{
    check_profile(b, buf.len())?;
    let start = Mark::start(&b.line.opening);
    Ok(put_points(buf, start, b.sections.listed()))
}
