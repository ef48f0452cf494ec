// The refusals of closing, and of asking for the figures of a closed line.
ghost use Rattle.std.specs.Prelude.{◌≡◌, true, false, not, ◌&&◌};
ghost use Rattle.numbers.specs.Numbers.{eq_z};
ghost use Rattle.numbers.specs.Tables.{first_of};
ghost use Rattle.records.specs.Refusals.{number_of};
ghost use Rattle.adjust.specs.Sections.{height_in_range};
ghost use Rattle.rules.specs.LineState.{state_of, is_shut};
ghost use Rattle.rules.specs.code.Closed.{closing_on, close_input_tests};
ghost use Rattle.rules.specs.code.Standing.{standing_of};
ghost use Rattle.rules.specs.declared.call.Call.TheVariants.{CloseLine as close_line};
ghost use Rattle.rules.specs.Rules.{all_broken, close_tests, length_limit, total_tests, line_tests, state_tests, figures_tests, book_refusal};

use super::refusals::check_number;
use super::standing::Standing;
use super::{Book, Line, Stage};
use adjust::Totals;
use adjust::terms::Terms;
use records::Refusal;
use roots::limits::within;

// The longest line, or the longest loop, in half dm.
fn length_limit(terms: &Terms, shut: bool) -> i64
    ensures { result ≡ length_limit terms.now shut }
{
    if shut { terms.circuit } else { terms.longest }
}

// Of the last number and the end height, which a spur has not.
fn check_input(number: i64, end: Option<i64>) -> Result<(), Refusal>
    ensures { number_of result ≡ first_of (close_input_tests number end) }
{
    check_number(number)?;
    if end.is_some_and(|height| !adjust::height_in_range(height)) {
        return Err(Refusal::KnownHeight);
    }
    Ok(())
}

// A line by its length and its closure.
fn check_totals(terms: &Terms, shut: bool, t: &Totals) -> Result<(), Refusal>
    ensures { number_of result ≡ first_of (total_tests terms.now shut t.now) }
{
    if length_limit(terms, shut) < t.distance {
        return Err(Refusal::LineLength);
    }
    let root = terms.closing;
    if !within(root.a, t.closure, root.b, t.distance) {
        return Err(Refusal::Closure);
    }
    Ok(())
}

// The same of a line up to the known height at its end, by the sums that it keeps. There are totals, since these and the heights are in range. `shut` is lent beside `standing`: to find it walks the sections.
fn check_line(standing: &Standing, end: i64, shut: bool) -> Result<(), Refusal>
    requires sums { all_broken (standing_of standing.now) ≡ false }
    requires end { height_in_range end ≡ true }
    requires shut { shut ≡ is_shut (standing_of standing.now) }
    ensures { number_of result ≡ first_of (line_tests (standing_of standing.now) end) }
{
    let opening = standing.line.opening;
    match adjust::totals_of(
        opening.staffs,
        opening.start.height,
        end,
        &standing.line.sums,
    ) {
        Some(t) => check_totals(&opening.terms(), shut, &t),
        None => Err(Refusal::Broken),
    }
}

// Of a closing by END or by FIN, up to 34.
fn check_place(standing: &Standing, other: bool, number: i64, unlike: bool) -> Result<(), Refusal>
    ensures { number_of result ≡ first_of (close_tests (standing_of standing.now) other number unlike) }
{
    let line = standing.line;
    if line.stage != Stage::Open {
        return Err(Refusal::Stage);
    }
    if other {
        return Err(Refusal::ClosingKind);
    }
    if line.present.count != 0 || line.waiting.is_some() || standing.sections.is_empty() {
        return Err(Refusal::Unfinished);
    }
    if number != standing.began() || unlike {
        return Err(Refusal::ClosingBenchmark);
    }
    Ok(())
}

// Whether the known height at the end is not that of the start, as it must be on a loop.
fn is_unlike(line: &Line, shut: bool, height: i64) -> bool
    ensures { result ≡ (shut && not (eq_z height line.now.opening.start.height)) }
{
    shut && height != line.opening.start.height
}

// What a line, all of whose sections are in range and beside their sums, causes to closing it on a known height.
fn check_close_on(standing: &Standing, number: i64, height: i64) -> Result<(), Refusal>
    requires sections { all_broken (standing_of standing.now) ≡ false }
    requires height { height_in_range height ≡ true }
    ensures { number_of result ≡ first_of (state_tests (standing_of standing.now) (close_line number height)) }
{
    let shut = standing.is_shut();
    let unlike = is_unlike(standing.line, shut, height);
    let other = !standing.line.opening.class.terms().tied;
    check_place(standing, other, number, unlike)?;
    check_line(standing, height, shut)
}

// Of closing on a number, and on a known height where the line is no spur. Once in a text: built into the loop over its lines, it makes each line slower.
#[inline(never)]
#[tactic(auto, unfolding(crate::specs::Rules::book_refusal))]
pub fn check_close(b: &Book, number: i64, end: Option<i64>) -> Result<(), Refusal>
    ensures { number_of result ≡ book_refusal (state_of b.now) (closing_on number end) }
{
    check_input(number, end)?;
    let standing = Standing::of_read(b)?;
    match end {
        Some(height) => check_close_on(&standing, number, height),
        None => {
            let other = standing.line.opening.class.terms().tied;
            check_place(&standing, other, number, false)
        }
    }
}

pub fn check_figures(b: &Book) -> Result<(), Refusal>
    ensures { number_of result ≡ first_of (figures_tests (state_of b.now)) }
{
    let line = Standing::of_read(b)?.line;
    if line.stage != Stage::Closed {
        return Err(Refusal::Stage);
    }
    Ok(())
}
