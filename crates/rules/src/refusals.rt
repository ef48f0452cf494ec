// The refusals of the calls but opening and closing: what the input alone causes, a station's apart, then 20, then what the book's state causes, the first that applies.
ghost use Rattle.std.specs.Prelude.{◌≡◌, false, not, cond, ◌||◌, eqb, Some, None, IfOk};
ghost use Rattle.numbers.specs.Numbers.{last_of};
ghost use Rattle.numbers.specs.Tables.{first_of};
ghost use Rattle.records.specs.Refusals.{number_of};
ghost use Rattle.adjust.specs.Sections.{no_section, sections_of};
ghost use Rattle.rules.specs.LineState.{state_of, is_empty, is_return, outward_or_return, both_ways};
ghost use Rattle.rules.specs.code.Bounds.{SmallRuns};
ghost use Rattle.rules.specs.code.Standing.{standing_of};
ghost use Rattle.rules.specs.declared.call.Call.TheVariants.{EndRun as end_run, DropRun as drop_run, Collimation as collimation, Constants as constants, LiftSection as lift_section};
ghost use Rattle.rules.specs.Rules.{number_in_range, counted_length, discrepancy_within, out_of_turn, station_tests, book_station_tests, state_tests, input_tests, book_refusal};

use super::broken::constants_in_range;
use super::standing::Standing;
use super::{Book, Line, Outward, Run, Stage};
use adjust::Section;
use adjust::terms::Root;
use collimation::{check_angle, check_range};
use records::Refusal;
use roots::limits::within;
use station::Figures;

fn number_in_range(n: i64) -> bool
    ensures { result ≡ number_in_range n }
{
    (1..=9999).contains(&n)
}

// Whether a benchmark can have this number.
pub(crate) fn check_number(number: i64) -> Result<(), Refusal>
    ensures { number_of result ≡ first_of (input_tests (end_run number)) }
{
    if !number_in_range(number) {
        return Err(Refusal::BenchmarkNumber);
    }
    Ok(())
}

// ---- station

// Whether the back staff is not the one due: within a run the last fore staff, at the beginning of a return the other than the one that ended the outward run.
fn out_of_turn(line: &Line, kb: i64) -> bool
    ensures { result ≡ out_of_turn line.now kb }
{
    if line.present.count != 0 {
        return kb != line.present.last;
    }
    line.waiting.is_some_and(|outward| kb == outward.run.last)
}

// The refusal that the line causes to a station with the figures f.
fn check_station_on(line: &Line, shut: bool, kb: i64, f: &Figures) -> Result<(), Refusal>
    ensures { number_of result ≡ first_of (station_tests line.now shut kb f.now) }
{
    let opening = line.opening;
    if line.stage != Stage::Open || shut {
        return Err(Refusal::Stage);
    }
    if !opening.collimated {
        return Err(Refusal::NotCollimated);
    }
    if 200 <= line.present.count {
        return Err(Refusal::RunFull);
    }
    if out_of_turn(line, kb) {
        return Err(Refusal::StaffTurn);
    }
    station::judge(
        opening.class.order(),
        opening.instrument,
        opening.staffs,
        line.present.difference,
        f,
    )
}

// Of a station with the figures f, whose back staff has the constant kb. What the readings alone cause is told by `station::read`.
pub fn check_station(b: &Book, kb: i64, f: &Figures) -> Result<(), Refusal>
    ensures { number_of result ≡ first_of (book_station_tests (state_of b.now) kb f.now) }
{
    let standing = Standing::of(b)?;
    check_station_on(standing.line, standing.is_shut(), kb, f)
}

// ---- the collimation test

#[tactic(auto, unfolding(crate::specs::Rules::book_refusal))]
pub fn check_collimation(b: &Book, x: [i64; 6]) -> Result<(), Refusal>
    ensures { number_of result ≡ book_refusal (state_of b.now) (collimation x) }
{
    check_range(x)?;
    let line = Standing::of(b)?.line;
    if line.stage != Stage::Open {
        return Err(Refusal::Stage);
    }
    if line.opening.collimated {
        return Err(Refusal::Collimation);
    }
    check_angle(x)
}

// ---- the staffs' constants

#[tactic(auto, unfolding(crate::specs::Rules::book_refusal))]
pub fn check_constants(b: &Book, first: i64, second: i64) -> Result<(), Refusal>
    ensures { number_of result ≡ book_refusal (state_of b.now) (constants first second) }
{
    if !constants_in_range(first, second) {
        return Err(Refusal::ConstantsRange);
    }
    let line = Standing::of(b)?.line;
    if line.stage != Stage::Open || line.opening.touched {
        return Err(Refusal::ConstantsPlace);
    }
    Ok(())
}

// ---- drop run, and drop section, whose tests are the same

#[tactic(auto, unfolding(crate::specs::Rules::book_refusal))]
pub fn check_drop(b: &Book) -> Result<(), Refusal>
    ensures { number_of result ≡ book_refusal (state_of b.now) drop_run }
{
    let line = Standing::of(b)?.line;
    if line.stage != Stage::Open {
        return Err(Refusal::Stage);
    }
    Ok(())
}

// ---- lift section

// What a line causes that is not broken: the last section, if it may be lifted.
fn check_lift_on(standing: &Standing) -> Result<Section, Refusal>
    ensures number { number_of result ≡ first_of (state_tests (standing_of standing.now) lift_section) }
    ensures section { IfOk result (λ x. x ≡ last_of no_section standing.now.sections.now) }
{
    let line = standing.line;
    if line.stage != Stage::Open {
        return Err(Refusal::Stage);
    }
    match standing.last() {
        Some(section) if line.present.count == 0 && line.waiting.is_none() => Ok(section),
        _ => Err(Refusal::LiftPlace),
    }
}

#[tactic(auto, unfolding(crate::specs::Rules::book_refusal))]
pub fn check_lift(b: &Book) -> Result<Section, Refusal>
    ensures number { number_of result ≡ book_refusal (state_of b.now) lift_section }
    ensures section { IfOk result (λ x. x ≡ last_of no_section (sections_of b.now.sections)) }
{
    check_lift_on(&Standing::of_last(b)?)
}

// ---- end run

// R as it counts for D: below 0.10 km as 0.10 km.
pub fn counted_length(r: i64) -> i64
    ensures { result ≡ counted_length r }
{
    r.max(2000)
}

// Whether an outward run and its return, the present run, are too far apart.
fn too_far(apart: Root, waiting: &Option<Outward>, present: &Run) -> bool
    requires { SmallRuns waiting.now present.now }
    ensures { result ≡ outward_or_return waiting.now false (λ number run. not (discrepancy_within apart (both_ways number run present.now))) }
{
    waiting.is_some_and(|outward| {
        let height = outward.run.height + present.height;
        let sights = outward.run.sights + present.sights;
        !within(apart.a, height, apart.b, counted_length(sights))
    })
}

// What a line causes that is not broken.
#[tactic(auto, using(crate::proofs::Unbroken::small_standing))]
fn check_run_end_on(standing: &Standing, number: i64) -> Result<(), Refusal>
    ensures { number_of result ≡ first_of (state_tests (standing_of standing.now) (end_run number)) }
{
    let line = standing.line;
    let stations = line.present.count;
    if line.stage != Stage::Open || standing.is_shut() {
        return Err(Refusal::Stage);
    }
    if stations == 0 || stations % 2 == 1 {
        return Err(Refusal::StationCount);
    }
    if line.waiting.is_none() && 64 <= standing.sections.len() {
        return Err(Refusal::BookFull);
    }
    if !standing.number_allowed(number) {
        return Err(Refusal::BenchmarkPlace);
    }
    let apart = line.opening.terms().apart;
    if too_far(apart, &line.waiting, &line.present) {
        return Err(Refusal::Discrepancy);
    }
    Ok(())
}

#[tactic(auto, unfolding(crate::specs::Rules::book_refusal))]
pub fn check_run_end(b: &Book, number: i64) -> Result<(), Refusal>
    ensures { number_of result ≡ book_refusal (state_of b.now) (end_run number) }
{
    check_number(number)?;
    check_run_end_on(&Standing::of(b)?, number)
}
