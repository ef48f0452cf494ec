// What each call makes of a book: its refusal, or its effect on the line and the list of its sections.
ghost use Rattle.std.specs.Prelude.{◌≡◌, MatchOption, IfOk, ⊤};
ghost use Rattle.records.specs.Refusals.{number_of};
ghost use Rattle.rules.specs.LineState.{state_of};
ghost use Rattle.rules.specs.declared.call.Call.TheVariants.{Station as station, EndRun as end_run, DropRun as drop_run, Collimation as collimation, Constants as constants, LiftSection as lift_section};
ghost use Rattle.rules.specs.Rules.{book_refusal};
ghost use Rattle.rules.specs.code.Opened.{named_refusal};
ghost use Rattle.rules.specs.code.Closed.{closing_on};
ghost use Rattle.changes.specs.declared.Shift.TheVariants.{Same};
ghost use Rattle.changes.specs.Changes.{Decides, opened};

use super::effects::{
    begun, closed, collimated, lifted, measured, run_dropped, run_ended, section_dropped,
    with_station,
};
use super::{Change, Shift};
use adjust::terms::Class;
use records::Refusal;
use rules::call::Call;
use rules::closing::check_close;
use rules::opening::{check_open, class_named, instrument_named, spur_named};
use rules::refusals::{
    check_collimation, check_constants, check_drop, check_lift, check_run_end, check_station,
};
use rules::{Book, Line};
use station::Instrument;

// A change of the line alone.
fn of_line(line: Line) -> Change
    ensures { result ≡ record { line = line; shift = Same } }
{
    Change {
        line,
        shift: Shift::Same,
    }
}

// Open a line or a spur, of the class and with the instrument that the call's numbers name. Either is none where they name none.
fn open_change(
    b: &Book,
    class: Option<Class>,
    instrument: Option<Instrument>,
    number: i64,
    height: i64,
    prints: i64,
) -> Result<Change, Refusal>
    ensures number { number_of result ≡ named_refusal (state_of b.now) class instrument number height prints }
    ensures change { MatchOption class ⊤ (λ y. MatchOption instrument ⊤ (λ z. IfOk result (λ x. x ≡ opened y z number height prints))) }
{
    let opening = check_open(b, class, instrument, number, height, prints)?;
    Ok(of_line(begun(opening)))
}

fn station_change(b: &Book, kb: i64, kf: i64, readings: [[i64; 4]; 2]) -> Result<Change, Refusal>
    ensures { Decides b.now (station kb kf readings) result }
{
    let figures = station::read(b.line.opening.staffs, kb, kf, readings)?;
    check_station(b, kb, &figures)?;
    Ok(of_line(with_station(&b.line, &figures, kf)))
}

#[tactic(auto, unfolding(crate::specs::Changes::effect_of))]
fn collimation_change(b: &Book, x: [i64; 6]) -> Result<Change, Refusal>
    ensures { Decides b.now (collimation x) result }
{
    check_collimation(b, x)?;
    Ok(of_line(collimated(&b.line)))
}

#[tactic(auto, using(crate::proofs::Joined::constants_fit), unfolding(crate::specs::Changes::effect_of))]
fn constants_change(b: &Book, first: i64, second: i64) -> Result<Change, Refusal>
    ensures { Decides b.now (constants first second) result }
{
    check_constants(b, first, second)?;
    Ok(of_line(begun(measured(&b.line.opening, first, second))))
}

#[tactic(auto, using(crate::proofs::Joined::small_ends, crate::proofs::Joined::sums_small, crate::proofs::Joined::ends_fit), unfolding(crate::specs::Changes::effect_of))]
fn end_change(b: &Book, number: i64) -> Result<Change, Refusal>
    ensures { Decides b.now (end_run number) result }
{
    check_run_end(b, number)?;
    Ok(run_ended(&b.line, number))
}

// Of either drop, which leaves this line.
fn drop_change(b: &Book, next: Line) -> Result<Change, Refusal>
    ensures number { number_of result ≡ book_refusal (state_of b.now) drop_run }
    ensures change { IfOk result (λ x. x ≡ record { line = next; shift = Same }) }
{
    check_drop(b)?;
    Ok(of_line(next))
}

#[tactic(auto, using(crate::proofs::Joined::sums_small, crate::proofs::Joined::lift_fits), unfolding(crate::specs::Changes::effect_of))]
fn lift_change(b: &Book) -> Result<Change, Refusal>
    ensures { Decides b.now lift_section result }
{
    let section = check_lift(b)?;
    Ok(lifted(&b.line, &section))
}

// Close a line on a known height, or a spur, which has none.
#[tactic(auto, using(crate::proofs::Joined::closing_effect))]
fn close_change(b: &Book, number: i64, end: Option<i64>) -> Result<Change, Refusal>
    ensures { Decides b.now (closing_on number end) result }
{
    check_close(b, number, end)?;
    Ok(of_line(closed(&b.line, end.unwrap_or(0))))
}

// Of any call.
#[tactic(auto, unfolding(rules::specs::Rules::book_refusal, crate::specs::Changes::effect_of))]
pub fn decide(b: &Book, call: &Call) -> Result<Change, Refusal>
    ensures { Decides b.now call.now result }
{
    match *call {
        Call::OpenLine {
            order,
            instrument,
            number,
            height,
            prints,
        } => open_change(
            b,
            class_named(order),
            instrument_named(instrument),
            number,
            height,
            prints,
        ),
        Call::Station { kb, kf, readings } => station_change(b, kb, kf, readings),
        Call::EndRun { number } => end_change(b, number),
        Call::DropRun => drop_change(b, run_dropped(&b.line)),
        Call::DropSection => drop_change(b, section_dropped(&b.line)),
        Call::CloseLine { number, end } => close_change(b, number, Some(end)),
        Call::OpenSpur {
            order,
            instrument,
            number,
            height,
            prints,
        } => open_change(
            b,
            spur_named(order),
            instrument_named(instrument),
            number,
            height,
            prints,
        ),
        Call::CloseSpur { number } => close_change(b, number, None),
        Call::Collimation { values } => collimation_change(b, values),
        Call::Constants { first, second } => constants_change(b, first, second),
        Call::LiftSection => lift_change(b),
    }
}
