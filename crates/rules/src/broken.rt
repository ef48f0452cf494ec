// The test of 20: whether a line's counts and sums can be, as all can that calls leave.
ghost use Rattle.std.specs.Prelude.{◌≡◌};
ghost use Rattle.rules.specs.LineState.{run_fits, waiting_broken, misplaced, constants_in_range, staffs_fit, out_of_range, line_broken};

use super::{Book, Line, Outward, Run, Stage};
use station::Staffs;

fn run_fits(run: &Run) -> bool
    ensures { result ≡ run_fits run.now }
{
    run.count <= 200
        && run.height.unsigned_abs() <= 25000000
        && run.count as i64 <= run.sights
        && run.sights <= 600000
        && run.difference.unsigned_abs() <= 1000000
}

fn waiting_broken(waiting: &Option<Outward>, count: usize) -> bool
    ensures { result ≡ waiting_broken waiting.now count }
{
    waiting.is_some_and(|outward| !run_fits(&outward.run) || 64 <= count)
}

// Whether measured constants are in their ranges.
pub(crate) fn constants_in_range(first: i64, second: i64) -> bool
    ensures { result ≡ constants_in_range first second }
{
    (46770..=46970).contains(&first) && (47770..=47970).contains(&second)
}

fn staffs_fit(staffs: Staffs) -> bool
    ensures { result ≡ staffs_fit staffs }
{
    match staffs {
        Staffs::Nominal => true,
        Staffs::Measured(first, second) => {
            constants_in_range(i64::from(first), i64::from(second))
        }
    }
}

fn is_misplaced(line: &Line, count: usize) -> bool
    ensures { result ≡ misplaced line.now count }
{
    let waits = line.waiting.is_some();
    let nothing = count == 0 && line.present.count == 0 && !waits;
    let new = line.stage == Stage::Fresh || !line.opening.touched;
    (new && !nothing)
        || (waits && !line.opening.class.terms().double)
        || (line.stage == Stage::Closed && count == 0)
}

// Whether a known height, a constant of the staffs or a sum that is kept of the sections is out of range.
fn is_out_of_range(line: &Line) -> bool
    ensures { result ≡ out_of_range line.now }
{
    !adjust::height_in_range(line.opening.start.height)
        || !adjust::height_in_range(line.end)
        || !staffs_fit(line.opening.staffs)
        || !line.sums.fit()
}

// Refusal 20 of a book's line.
#[tactic(auto, unfolding(crate::specs::LineState::line_broken))]
pub(crate) fn line_broken(b: &Book) -> bool
    ensures { result ≡ line_broken b.now.line b.now.sections.count }
{
    let line = &b.line;
    let count = b.sections.count;
    64 < count
        || !run_fits(&line.present)
        || waiting_broken(&line.waiting, count)
        || is_out_of_range(line)
        || is_misplaced(line, count)
}
