// The report, written into a lent buffer: each piece at its beginning, and the next into the rest.
ghost use Rattle.std.specs.Prelude.{◌≡◌, true, map, ◌+◌, ◌*◌, ◌≤◌, length};
ghost use Rattle.columns.specs.Lines.{line_fits, tag_line};
ghost use Rattle.columns.specs.Texts.{joined};
ghost use Rattle.fieldbook.specs.Report.{ref_line, shown_t, closed_line, point_line, opn_line};
ghost use Rattle.fieldbook.specs.Fits.{closed_fits, point_fits};
ghost use Rattle.fieldbook.specs.code.Printed.{Puts, refusal_lines, figures_lines, book_lines, below_title, state_lines, points_fit, ClosingFits, Printable};

use adjust::prints::PrintUnit;
use adjust::{LineFigures, Point, Summary};
use book::calls::figures_of;
use columns::writer::{is_wide, put_line, put_title};
use rules::Book;
use textbook::text::State;

// A line whose numbers fit: its length. (Lines as `&mut [u8; 84]`, by `split_at_mut` and `first_chunk_mut`, were tried and proved: a refused line takes four instructions more, a report of blank lines 2.5 %.)
#[tactic(auto, using(crate::proofs::Written::put_whole))]
fn put_whole(buf: &mut [u8], tag: &[u8], numbers: &[i64], wide: bool) -> usize
    requires fit { line_fits (length tag.now) numbers.now wide ≡ true }
    requires room { 84 ≤ length buf.old }
    ensures { Puts (tag_line tag.now numbers.now wide) buf.old buf.new result }
{
    put_line(buf, 0, tag, numbers, wide);
    84
}

// The refusal of a line: its length.
#[tactic(auto, using(crate::proofs::Written::refusal_fits))]
pub(crate) fn put_refusal(buf: &mut [u8], line: usize, number: u8) -> usize
    requires { (84 ≤ length buf.old) × (line ≤ 777) }
    ensures { Puts (ref_line (record { line = line; number = number })) buf.old buf.new result }
{
    put_whole(buf, b"REF", &[line as i64, number as i64], false)
}

// The refusals among the numbers, each in its line's place: their length.
fn put_refusals(buf: &mut [u8], numbers: &[u8; 778]) -> usize
    requires { 65352 ≤ length buf.old }
    ensures { Puts (joined (refusal_lines 0 numbers.now)) buf.old buf.new result }
{
    // A running index: the next part of the buffer begins where the last one ended, and how long that was is known only then.
    let mut at = 0;
    for (line, number) in numbers.iter().enumerate() {
        if *number != 0 {
            at += put_refusal(&mut buf[at..], line, *number);
        }
    }
    at
}

#[tactic(auto, using(crate::proofs::Written::open_fits))]
fn put_open(buf: &mut [u8], sections: usize) -> usize
    requires { (84 ≤ length buf.old) × (sections ≤ 64) }
    ensures { Puts (opn_line sections) buf.old buf.new result }
{
    put_whole(buf, b"OPN", &[sections as i64], false)
}

// T as it is printed: one that has more than eight digits as 99,999,999.
fn shown_t(t: i64) -> i64
    ensures { result ≡ shown_t t }
{
    t.min(99999999)
}

fn put_closed(buf: &mut [u8], s: &Summary) -> usize
    requires { (84 ≤ length buf.old) × ((s.now.count ≤ 64) × (closed_fits s.now ≡ true)) }
    ensures { Puts (closed_line s.now) buf.old buf.new result }
{
    let count = s.count as i64;
    let verdict = s.verdict.number() as i64;
    let numbers = [s.closure, s.distance, count, shown_t(s.accidental), verdict];
    put_whole(buf, b"CLO", &numbers, false)
}

fn put_point(buf: &mut [u8], unit: PrintUnit, p: &Point) -> usize
    requires { (84 ≤ length buf.old) × (point_fits unit p.now ≡ true) }
    ensures { Puts (point_line unit p.now) buf.old buf.new result }
{
    let numbers = [p.number, p.distance, p.correction, p.height];
    let wide = unit.is_tenths() || is_wide(p.height);
    put_whole(buf, b"PNT", &numbers, wide)
}

// The points: their length.
fn put_points(buf: &mut [u8], unit: PrintUnit, points: &[Point]) -> usize
    requires { (84 * length points.now ≤ length buf.old) × points_fit unit points.now }
    ensures { Puts (joined (map (point_line unit) points.now)) buf.old buf.new result }
{
    // A running index: the next part of the buffer begins where `put_point` says that the last one ended.
    let mut at = 0;
    for point in points {
        at += put_point(&mut buf[at..], unit, point);
    }
    at
}

// What closing the line gave: its length.
#[tactic(auto, using(crate::proofs::Written::put_closing))]
fn put_closing(buf: &mut [u8], unit: PrintUnit, figures: &LineFigures) -> usize
    requires { ClosingFits unit figures.now × (length (joined (figures_lines unit figures.now)) ≤ length buf.old) }
    ensures { Puts (joined (figures_lines unit figures.now)) buf.old buf.new result }
{
    let n = figures.summary.count + 1;
    let at = put_closed(buf, &figures.summary);
    at + put_points(&mut buf[at..], unit, &figures.points[..n])
}

// What the report says of the book's line, CLO and PNT or OPN: its length.
fn put_book(buf: &mut [u8], b: &Book) -> usize
    requires { Printable b.now × (length (joined (book_lines b.now)) ≤ length buf.old) }
    ensures { Puts (joined (book_lines b.now)) buf.old buf.new result }
{
    match figures_of(*b) {
        Ok(figures) => put_closing(buf, b.line.opening.print_unit, &figures),
        Err(_) => put_open(buf, b.sections.count),
    }
}

// The refusals, and what is said of the book's line: their length.
#[tactic(auto, using(crate::proofs::Written::put_below))]
fn put_below(buf: &mut [u8], s: &State) -> usize
    requires { (65352 ≤ length buf.old) × (Printable s.now.book × (length (joined (below_title s.now)) ≤ length buf.old)) }
    ensures { Puts (joined (below_title s.now)) buf.old buf.new result }
{
    let at = put_refusals(buf, &s.refusals);
    at + put_book(&mut buf[at..], &s.book)
}

// The report of what was read: its length. (`Printable` goes down from here to `put_book` as a fact: a type that holds it would be made in `reduce_text` for this one call and taken apart in `put_book`.)
#[tactic(auto, using(crate::proofs::Written::put_state))]
pub(crate) fn put_state(buf: &mut [u8], s: &State) -> usize
    requires { (65536 ≤ length buf.old) × (Printable s.now.book × (length (joined (state_lines s.now)) ≤ length buf.old)) }
    ensures { Puts (joined (state_lines s.now)) buf.old buf.new result }
{
    put_title(buf, 0);
    84 + put_below(&mut buf[84..], s)
}
