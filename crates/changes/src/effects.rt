// What a call that is taken leaves of the line, and of the list of its sections.
ghost use Rattle.std.specs.Prelude.{◌≡◌, true, None};
ghost use Rattle.station.specs.code.Bounds.{Small};
ghost use Rattle.rules.specs.LineState.{constants_in_range, no_run, with_station, one_way, both_ways};
ghost use Rattle.rules.specs.declared.call.Call.TheVariants.{EndRun as end_run};
ghost use Rattle.adjust.specs.Sections.{section_fits};
ghost use Rattle.adjust.specs.Kept.{sums_plus, sums_minus, sums_fit};
ghost use Rattle.rules.specs.Rules.{with_opening, with_runs, with_sums, closed_at};
ghost use Rattle.rules.specs.Rules as Rules;
ghost use Rattle.rules.specs.code.Bounds.{SmallRun, SmallRuns, finish_fits};
ghost use Rattle.changes.specs.declared.Shift.TheVariants.{Finished, Lifted};
ghost use Rattle.changes.specs.Changes.{change_of};

use super::{Change, Shift};
use adjust::{Opening, Section, SectionSums};
use rules::{Line, Outward, Run, Stage};
use station::{Figures, Staffs};

// ---- open

// An open line with nothing in it.
pub(crate) fn begun(opening: Opening) -> Line
    ensures { result ≡ Rules.begun opening }
{
    Line {
        stage: Stage::Open,
        opening,
        end: 0,
        sums: SectionSums::default(),
        waiting: None,
        present: Run::default(),
    }
}

// ---- the collimation test

pub(crate) fn collimated(line: &Line) -> Line
    ensures { result ≡ with_opening line.now (Rules.collimated line.now.opening) }
{
    let mut next = *line;
    next.opening.collimated = true;
    next.opening.touched = true;
    next
}

// ---- the staffs' constants

pub(crate) fn measured(opening: &Opening, first: i64, second: i64) -> Opening
    requires { constants_in_range first second ≡ true }
    ensures { result ≡ Rules.measured opening.now first second }
{
    let staffs = Staffs::Measured(first.unsigned_abs() as u16, second.unsigned_abs() as u16);
    Opening {
        staffs,
        touched: true,
        ..*opening
    }
}

// ---- station

// The line with other runs.
fn with_runs(line: &Line, waiting: Option<Outward>, present: Run) -> Line
    ensures { result ≡ with_runs line.now waiting present }
{
    let mut next = *line;
    next.opening.touched = true;
    next.waiting = waiting;
    next.present = present;
    next
}

// The line with the present run's sums and a station's. The bounds stand in each contract: a book may be handed in with any run, so that no type of a run carries them.
pub(crate) fn with_station(line: &Line, f: &Figures, kf: i64) -> Line
    requires { SmallRun line.now.present × Small f.now }
    ensures { result ≡ with_runs line.now line.now.waiting (with_station line.now.present f.now kf) }
{
    let run = line.present;
    let present = Run {
        count: run.count + 1,
        height: run.height + f.height,
        sights: run.sights + (f.back.sight + f.fore.sight),
        difference: run.difference + f.difference,
        last: kf,
    };
    with_runs(line, line.waiting, present)
}

// ---- end run

fn one_way(number: i64, run: &Run) -> Section
    requires { SmallRun run.now }
    ensures { result ≡ one_way number run.now }
{
    Section {
        number,
        height: 2 * run.height,
        distance: 2 * run.sights,
        discrepancy: 0,
    }
}

fn both_ways(outward: &Outward, back: &Run) -> Section
    requires { SmallRun outward.now.run × SmallRun back.now }
    ensures { result ≡ both_ways outward.now.number outward.now.run back.now }
{
    Section {
        number: outward.number,
        height: outward.run.height - back.height,
        distance: outward.run.sights + back.sights,
        discrepancy: outward.run.height + back.height,
    }
}

// The line with other sums.
fn with_sums(line: &Line, sums: SectionSums) -> Line
    ensures { result ≡ with_sums line.now sums }
{
    let mut next = *line;
    next.sums = sums;
    next
}

// A section is finished: it is added to the sums, nothing waits any more, and the next run begins.
fn finished(line: &Line, section: Section) -> Change
    requires sums { sums_fit line.now.sums ≡ true }
    requires section { section_fits section ≡ true }
    ensures { result ≡ record { line = with_sums (with_runs line.now None no_run) (sums_plus line.now.opening line.now.sums section); shift = Finished section } }
{
    let sums = line.sums.plus(&line.opening, &section).unwrap_or(line.sums);
    Change {
        line: with_sums(&section_dropped(line), sums),
        shift: Shift::Finished(section),
    }
}

// An outward run waits where sections are levelled out and back, and is a section where they are levelled one way. A return finishes the section.
pub(crate) fn run_ended(line: &Line, number: i64) -> Change
    requires runs { SmallRuns line.now.waiting line.now.present }
    requires sums { sums_fit line.now.sums ≡ true }
    requires section { finish_fits line.now number ≡ true }
    ensures { result ≡ change_of line.now (end_run number) }
{
    let run = line.present;
    if let Some(outward) = line.waiting {
        return finished(line, both_ways(&outward, &run));
    }
    if line.opening.class.terms().double {
        let waiting = Some(Outward { number, run });
        return Change {
            line: with_runs(line, waiting, Run::default()),
            shift: Shift::Same,
        };
    }
    finished(line, one_way(number, &run))
}

// ---- drop run, drop section

pub(crate) fn run_dropped(line: &Line) -> Line
    ensures { result ≡ with_runs line.now line.now.waiting no_run }
{
    with_runs(line, line.waiting, Run::default())
}

pub(crate) fn section_dropped(line: &Line) -> Line
    ensures { result ≡ with_runs line.now None no_run }
{
    with_runs(line, None, Run::default())
}

// ---- lift section

// The last section is taken off the sums.
pub(crate) fn lifted(line: &Line, section: &Section) -> Change
    requires sums { sums_fit line.now.sums ≡ true }
    requires section { section_fits section.now ≡ true }
    ensures { result ≡ record { line = with_sums (with_runs line.now line.now.waiting line.now.present) (sums_minus line.now.opening line.now.sums section.now); shift = Lifted } }
{
    let sums = line.sums.minus(&line.opening, section).unwrap_or(line.sums);
    Change {
        line: with_sums(&with_runs(line, line.waiting, line.present), sums),
        shift: Shift::Lifted,
    }
}

// ---- close

pub(crate) fn closed(line: &Line, end: i64) -> Line
    ensures { result ≡ closed_at line.now end }
{
    let mut next = *line;
    next.stage = Stage::Closed;
    next.opening.touched = true;
    next.end = end;
    next
}
