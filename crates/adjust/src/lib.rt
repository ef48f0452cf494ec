// Closing figures over the sections of a line, and the adjustment call.
#![tactic(auto)]

ghost use Rattle.std.specs.Prelude.{◌≡◌, ◌≤◌, take, []};
ghost use Rattle.numbers.specs.Numbers.{filled};
ghost use Rattle.adjust.specs.Sections.{sections_of, height_in_range};
ghost use Rattle.adjust.specs.Kept.{sums_of, unsummed};
ghost use Rattle.adjust.specs.Frames.{no_point, figures_fit, line_totals, adjusted_of, line_figures};
ghost use Rattle.adjust.specs.Terms.{terms_by};
ghost use Rattle.adjust.specs.Line.{units_of, closing, verdict_number};
ghost use Rattle.adjust.specs.code.Bounds.{Between};

mod accidental;
pub mod call;
pub mod entry;
mod heights;
pub mod keeping;
pub mod prints;
mod ranges;
mod sums;
pub mod terms;

use prints::PrintUnit;
use station::{Instrument, Staffs, scale_of};
use terms::{Class, Terms};

// The base's units to a millimetre, by which the adjustment call always goes: Q and W in quarter mm.
const QUARTERS: i64 = 4;

#[derive(Clone, Copy)]
pub struct Benchmark {
    pub number: i64,
    pub height: i64,
}

// What a line is opened with, its staffs' constants and its print unit among it, and what was done since: whether its level's collimation was tested, and whether any call was taken.
#[derive(Clone, Copy)]
pub struct Opening {
    pub class: Class,
    pub instrument: Instrument,
    pub start: Benchmark,
    pub staffs: Staffs,
    pub print_unit: PrintUnit,
    pub collimated: bool,
    pub touched: bool,
}

impl Opening {
    // The row of the line's class, its limits of D and W in the units that the staffs set.
    pub fn terms(&self) -> Terms
        ensures { result ≡ terms_by self.now.staffs self.now.class }
    {
        let terms = self.class.terms();
        Terms {
            apart: terms.apart.scaled(self.staffs),
            closing: terms.closing.scaled(self.staffs),
            ..terms
        }
    }
}

// A finished section: the benchmark that it ends on, its height difference Q in quarter mm, its distance R in half dm, and the discrepancy D
// of its two runs in half mm, 0 for one run. Where the staffs' constants were measured, Q and D, and so W and the corrections, are in tenths of these units.
#[derive(Clone, Copy, Default, PartialEq, Eq)]
pub struct Section {
    pub number: i64,
    pub height: i64,
    pub distance: i64,
    pub discrepancy: i64,
}

// The sums over the sections of a line, which it keeps as they come and go: ΣQ, L, and T in hundredths of mm² per km.
#[derive(Clone, Copy, Default, PartialEq, Eq)]
pub struct SectionSums {
    pub height: i64,
    pub distance: i64,
    pub accidental: i64,
}

// The sections of a line in an array. Places from count on do not count.
// A count beside an array, as there is no heap. No type that holds at most 64: it would take fewer records than before, and one with another count is refused with 20.
#[derive(Clone, Copy)]
pub struct Sections {
    pub count: usize,
    pub places: [Section; 64],
}

impl Sections {
    // The sections as a list: no more than there are places.
    #[tactic(auto, using(crate::proofs::Holding::listed))]
    pub fn listed(&self) -> &[Section]
        ensures places { result.now ≡ take self.now.count self.now.places }
        ensures sections { self.now.count ≤ 64 → result.now ≡ sections_of self.now }
    {
        &self.places[..self.count.min(64)]
    }

    // Whether there are more than 64 sections, one outside the wider range, or others than those whose sums are kept.
    pub fn unsummed(&self, opening: &Opening, sums: &SectionSums) -> bool
        ensures { result ≡ unsummed opening.now sums.now (sections_of self.now) }
    {
        64 < self.count || keeping::unsummed(opening, sums, self.listed())
    }

    // What closing the line gives, as `adjusted_line` says it of a list; none of more sections than there are places.
    #[tactic(auto, using(crate::proofs::Arrays::arrays))]
    pub fn adjusted(&self, opening: &Opening, end: i64, kept: &SectionSums) -> Option<LineFigures>
        ensures { result ≡ line_figures opening.now end kept.now (sections_of self.now) }
    {
        if 64 < self.count {
            return None;
        }
        adjusted_line(opening, end, kept, self.listed())
    }
}

// A benchmark of the closed line: its distance from the start in half dm, the correction of the section before it in quarter mm, its height in mm. The last two are in
// tenths of these where the print unit is.
#[derive(Clone, Copy, Default, PartialEq, Eq)]
pub struct Point {
    pub number: i64,
    pub distance: i64,
    pub correction: i64,
    pub height: i64,
}

// No points: zeros in every place.
pub fn no_points() -> [Point; 65]
    ensures { result ≡ filled no_point 65 [] }
{
    [Point::default(); 65]
}

// What is said of T: nothing below 20 sections and where they are levelled one way, otherwise whether it is within its limit.
#[derive(Clone, Copy, Default, PartialEq, Eq)]
pub enum Verdict {
    #[default]
    NotGiven = 0,
    Within = 1,
    Above = 2,
}

impl Verdict {
    // Its number in the report.
    pub fn number(self) -> u8
        ensures { result ≡ verdict_number self }
    {
        self as u8
    }
}

// W, in the corrections' unit, L in half dm, n, T in hundredths of mm² per km, and the verdict.
#[derive(Clone, Copy, Default)]
pub struct Summary {
    pub closure: i64,
    pub distance: i64,
    pub count: usize,
    pub accidental: i64,
    pub verdict: Verdict,
}

// What is answered of a line that is adjusted: its summary and its points, the start and one for each section, zeros behind them.
#[derive(Clone, Copy)]
pub struct LineFigures {
    pub summary: Summary,
    pub points: [Point; 65],
}

// W in quarter mm and L in half dm.
#[derive(Clone, Copy)]
pub struct Totals {
    pub closure: i64,
    pub distance: i64,
}

// What the heights of a line are computed from.
#[derive(Clone, Copy)]
pub struct Frame {
    // The units of Q and W to a millimetre.
    pub units: i64,
    // The units of a printed height to a millimetre.
    pub prints: i64,
    // The known height at the start, in mm.
    pub start: i64,
    // W, in the units of Q.
    pub closure: i64,
    // L, in half dm.
    pub total: i64,
}

// Whether a height is in document 01's range.
pub fn height_in_range(h: i64) -> bool
    ensures { result ≡ height_in_range h }
{
    (-999999..=8999999).contains(&h)
}

// Whether there are 1 to 64 sections in the wider range, beside their sums, between heights in theirs: then all figures fit 64 bits.
#[tactic(auto, unfolding(crate::specs::Frames::figures_fit))]
fn figures_fit(opening: &Opening, end: i64, kept: &SectionSums, sections: &[Section]) -> bool
    ensures { result ≡ figures_fit opening.now end kept.now sections.now }
{
    !sections.is_empty()
        && !keeping::unsummed(opening, kept, sections)
        && height_in_range(opening.start.height)
        && height_in_range(end)
}

// The units to a millimetre of Q and W: quarter mm, or tenths of these where the constants were measured.
pub fn units_of(staffs: Staffs) -> i64
    ensures { result ≡ units_of staffs }
{
    QUARTERS * scale_of(staffs) as i64
}

// W and L between two known heights by the sums that a line keeps; none where one of these is out of range.
#[tactic(auto, using(crate::proofs::Fitting::fits), unfolding(crate::specs::Frames::line_totals))]
pub fn totals_of(staffs: Staffs, start: i64, end: i64, kept: &SectionSums) -> Option<Totals>
    ensures { result ≡ line_totals staffs start end kept.now }
{
    if kept.fit() && height_in_range(start) && height_in_range(end) {
        return Some(sums::totals_from(units_of(staffs), start, end, kept.height, kept.distance));
    }
    None
}

// The closing of figures that fit: W, L and T are by the sums that the line keeps.
fn closing_of(opening: &Opening, end: i64, kept: &SectionSums, sections: &[Section]) -> LineFigures
    requires { Between opening.now.start.height end sections.now × (kept.now ≡ sums_of opening.now sections.now) }
    ensures { result ≡ adjusted_of (closing opening.now end sections.now) }
{
    let start = opening.start;
    let units = units_of(opening.staffs);
    let terms = opening.class.terms();
    let t = sums::totals_by(
        terms,
        sums::totals_from(units, start.height, end, kept.height, kept.distance),
    );
    let f = Frame::new(units, opening.print_unit.prints(), start.height, t);
    let summary = Summary {
        closure: f.prints * f.closure,
        distance: f.total,
        count: sections.len(),
        accidental: kept.accidental,
        verdict: accidental::verdict_of(terms, sections.len(), kept.accidental),
    };
    LineFigures {
        summary,
        points: f.points(start.number, sections),
    }
}

// What closing the line gives, where `figures_fit`: W, L, n, T, the verdict and the points. Of a spur `end` is only held to its range.
#[tactic(auto, using(crate::proofs::Fitting::fits), unfolding(crate::specs::Frames::line_figures))]
pub fn adjusted_line(
    opening: &Opening,
    end: i64,
    kept: &SectionSums,
    sections: &[Section],
) -> Option<LineFigures>
    ensures { result ≡ line_figures opening.now end kept.now sections.now }
{
    if figures_fit(opening, end, kept, sections) {
        return Some(closing_of(opening, end, kept, sections));
    }
    None
}
