// Opening, a line or a spur: what its numbers name, and its refusals.
ghost use Rattle.std.specs.Prelude.{◌≡◌, MatchOption, IfOk, ⊤};
ghost use Rattle.numbers.specs.Tables.{first_of};
ghost use Rattle.records.specs.Refusals.{number_of};
ghost use Rattle.adjust.specs.Prints.{print_unit_of};
ghost use Rattle.rules.specs.LineState.{state_of};
ghost use Rattle.rules.specs.declared.call.Call.TheVariants.{OpenLine as open_line, OpenSpur as open_spur};
ghost use Rattle.rules.specs.Rules.{opening_with, book_refusal};
ghost use Rattle.rules.specs.code.Opened.{class_named, spur_named, instrument_named, fresh_tests, start_refusal, named_refusal};

use super::refusals::check_number;
use super::standing::Standing;
use super::{Book, Stage};
use adjust::prints::{PrintUnit, print_unit_named};
use adjust::terms::Class;
use adjust::{Benchmark, Opening};
use records::Refusal;
use station::{Instrument, Staffs};

// The class of a line of this order; none where there is no such order. No `TryFrom`: an order names two classes, of a line and of a spur.
pub fn class_named(order: i64) -> Option<Class>
    ensures { result ≡ class_named order }
{
    match order {
        3 => Some(Class::Third),
        4 => Some(Class::Fourth),
        _ => None,
    }
}

// And of a spur, which is of fourth order.
pub fn spur_named(order: i64) -> Option<Class>
    ensures { result ≡ spur_named order }
{
    match order {
        4 => Some(Class::Spur),
        _ => None,
    }
}

// 3 for DS3, 1 for DS1 and DS05. No `TryFrom`, so that it answers as `class_named` does, beside which it is called.
pub fn instrument_named(number: i64) -> Option<Instrument>
    ensures { result ≡ instrument_named number }
{
    match number {
        3 => Some(Instrument::Ds3),
        1 => Some(Instrument::Ds1),
        _ => None,
    }
}

// What a line is opened with.
pub fn opening_with(
    class: Class,
    instrument: Instrument,
    number: i64,
    height: i64,
    print_unit: PrintUnit,
) -> Opening
    ensures { result ≡ opening_with class instrument number height print_unit }
{
    Opening {
        class,
        instrument,
        start: Benchmark { number, height },
        staffs: Staffs::Nominal,
        print_unit,
        collimated: false,
        touched: false,
    }
}

// Of the book: only a fresh one is opened.
fn check_fresh(b: &Book) -> Result<(), Refusal>
    ensures { number_of result ≡ first_of (fresh_tests (state_of b.now)) }
{
    if Standing::of(b)?.line.stage != Stage::Fresh {
        return Err(Refusal::Stage);
    }
    Ok(())
}

// Of the start's number and height, the print unit, and of the book: the print unit that is named.
fn check_start(b: &Book, number: i64, height: i64, prints: i64) -> Result<PrintUnit, Refusal>
    ensures number { number_of result ≡ start_refusal (state_of b.now) number height prints }
    ensures unit { IfOk result (λ u. u ≡ print_unit_of prints) }
{
    check_number(number)?;
    if !adjust::height_in_range(height) {
        return Err(Refusal::KnownHeight);
    }
    let print_unit = print_unit_named(prints).ok_or(Refusal::PrintUnit)?;
    check_fresh(b)?;
    Ok(print_unit)
}

// Of opening a line or a spur, of the class and with the instrument that the call's numbers name. Either is none where they name none.
pub fn check_open(
    b: &Book,
    class: Option<Class>,
    instrument: Option<Instrument>,
    number: i64,
    height: i64,
    prints: i64,
) -> Result<Opening, Refusal>
    ensures number { number_of result ≡ named_refusal (state_of b.now) class instrument number height prints }
    ensures opening { MatchOption class ⊤ (λ y. MatchOption instrument ⊤ (λ z. IfOk result (λ o. o ≡ opening_with y z number height (print_unit_of prints)))) }
{
    let class = class.ok_or(Refusal::OrderOrInstrument)?;
    let instrument = instrument.ok_or(Refusal::OrderOrInstrument)?;
    let print_unit = check_start(b, number, height, prints)?;
    Ok(opening_with(class, instrument, number, height, print_unit))
}

// Of opening a line, by the call's numbers: the rules' own number.
pub fn check_open_line(
    b: &Book,
    order: i64,
    instrument: i64,
    number: i64,
    height: i64,
    prints: i64,
) -> Result<Opening, Refusal>
    ensures { number_of result ≡ book_refusal (state_of b.now) (open_line order instrument number height prints) }
{
    check_open(
        b,
        class_named(order),
        instrument_named(instrument),
        number,
        height,
        prints,
    )
}

// And of opening a spur.
pub fn check_open_spur(
    b: &Book,
    order: i64,
    instrument: i64,
    number: i64,
    height: i64,
    prints: i64,
) -> Result<Opening, Refusal>
    ensures { number_of result ≡ book_refusal (state_of b.now) (open_spur order instrument number height prints) }
{
    check_open(
        b,
        spur_named(order),
        instrument_named(instrument),
        number,
        height,
        prints,
    )
}
