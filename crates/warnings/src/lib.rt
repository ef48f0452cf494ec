// Warnings of drift: where the discrepancies of several sections in a row keep one sign and exceed a fifth of the limit. Of a book, of a text, and as the program prints them.
#![tactic(auto)]

ghost use Rattle.std.specs.Prelude.{◌≡◌, [], take};
ghost use Rattle.rules.specs.LineState.{state_of};
ghost use Rattle.warnings.specs.Drift.{window_out, levelled_one_way, Warns};

pub mod entry;
pub mod printing;
mod windows;

use records::Refusal;
use rules::standing::Standing;
use rules::{Book, Line, Stage};

// The first sections of the windows in which a line drifts, counted from 1: how many, and their numbers in the first places of an array.
#[derive(Clone, Copy)]
pub struct Drift {
    pub count: usize,
    pub firsts: [usize; 62],
}

impl Drift {
    // The numbers as a list.
    #[tactic(auto, using(std::proofs::lemmas::List::take_min))]
    pub fn listed(&self) -> &[usize]
        ensures { result.now ≡ take self.now.count self.now.firsts }
    {
        &self.firsts[..self.count.min(self.firsts.len())]
    }
}

// Whether a window has another size than 3 to 10 sections.
fn window_out(window: i64) -> bool
    ensures { result ≡ window_out window }
{
    !(3..=10).contains(&window)
}

// Whether a line is opened whose sections are levelled one way.
fn levelled_one_way(line: &Line) -> bool
    ensures { result ≡ levelled_one_way (record { line = line.now; sections = [] }) }
{
    line.stage != Stage::Fresh && !line.opening.class.terms().double
}

// The warnings of a book, by windows of so many sections.
pub fn drift_of(b: &Book, window: i64) -> Result<Drift, Refusal>
    ensures { Warns (state_of b.now) window result }
{
    if window_out(window) {
        return Err(Refusal::DriftWindow);
    }
    let standing = Standing::of_read(b)?;
    let opening = standing.line.opening;
    if levelled_one_way(standing.line) {
        return Err(Refusal::DriftWindow);
    }
    Ok(windows::find(opening.terms().apart, window as usize, standing.sections))
}
