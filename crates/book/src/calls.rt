// The calls of a book. Each gives its answer and the book after it; a refused call leaves the very book.
ghost use Rattle.std.specs.Prelude.{◌≡◌, IfOk};
ghost use Rattle.records.specs.Refusals.{number_of};
ghost use Rattle.adjust.specs.Frames.{adjusted_of};
ghost use Rattle.rules.specs.LineState.{state_of};
ghost use Rattle.rules.specs.declared.call.Call.TheVariants.{OpenLine as open_line, Station as station, EndRun as end_run, DropRun as drop_run, DropSection as drop_section, CloseLine as close_line, OpenSpur as open_spur, CloseSpur as close_spur, Collimation as collimation, Constants as constants, LiftSection as lift_section};
ghost use Rattle.rules.specs.Rules.{book_refusal};
ghost use Rattle.book.specs.Calls.{book_after, Answers, closing_of, Closes, Tells};
ghost use Rattle.book.specs.code.Made.{Makes, Fit};

use super::Outcome;
use adjust::{LineFigures, Section};
use changes::Change;
use changes::decisions::decide;
use changes::storing::store;
use records::Refusal;
use rules::Book;
use rules::call::Call;
use rules::closing::check_figures;

// A change that was decided, made of the book in its place.
fn make(book: &mut Book, decided: Result<Change, Refusal>) -> Result<(), Refusal>
    ensures { Makes book.old decided result book.new }
{
    let change = decided?;
    store(book, &change);
    Ok(())
}

// A call of a book, on the book in its place, which a refused call leaves as it is.
#[tactic(auto, using(crate::proofs::Joined::made))]
pub fn enter(book: &mut Book, call: &Call) -> Result<(), Refusal>
    ensures number { number_of result ≡ book_refusal (state_of book.old) call.now }
    ensures book { book.new ≡ book_after book.old call.now }
{
    let decided = decide(book, call);
    make(book, decided)
}

// The same of a book by value: what any call answers and leaves, whatever its numbers.
pub fn take(b: Book, call: Call) -> Outcome<()>
    ensures { Answers b call result }
{
    let mut book = b;
    let answer = enter(&mut book, &call);
    Outcome { answer, book }
}

// Open the line: order 3 or 4, instrument 3 for DS3 or 1 for DS1 and DS05, the start's number and its height in mm, and the print unit, 1 or 10 to the millimetre.
// A function of its own, and so of each call below, also where two make much the same: the documents name each call.
pub fn open(
    b: Book,
    order: i64,
    instrument: i64,
    number: i64,
    height: i64,
    prints: i64,
) -> Outcome<()>
    ensures { Answers b (open_line order instrument number height prints) result }
{
    take(
        b,
        Call::OpenLine {
            order,
            instrument,
            number,
            height,
            prints,
        },
    )
}

// Open a spur, levelled out and back from the start to an end that is not known: order 4, else as a line.
pub fn open_spur(
    b: Book,
    order: i64,
    instrument: i64,
    number: i64,
    height: i64,
    prints: i64,
) -> Outcome<()>
    ensures { Answers b (open_spur order instrument number height prints) result }
{
    take(
        b,
        Call::OpenSpur {
            order,
            instrument,
            number,
            height,
            prints,
        },
    )
}

// The collimation test of the level: A1, B1, A2, B2, each the sum of four readings, and the distances D1 and D2, all in mm.
pub fn collimation(b: Book, x: [i64; 6]) -> Outcome<()>
    ensures { Answers b (collimation x) result }
{
    take(b, Call::Collimation { values: x })
}

// The staffs' measured constants, in tenths of a millimetre: of the staff 4,687, then of the staff 4,787.
pub fn constants(b: Book, first: i64, second: i64) -> Outcome<()>
    ensures { Answers b (constants first second) result }
{
    take(b, Call::Constants { first, second })
}

// A station: the constants and the readings, back and fore.
pub fn station(b: Book, kb: i64, kf: i64, readings: [[i64; 4]; 2]) -> Outcome<()>
    ensures { Answers b (station kb kf readings) result }
{
    take(b, Call::Station { kb, kf, readings })
}

// End the present run on a benchmark.
pub fn end_run(b: Book, number: i64) -> Outcome<()>
    ensures { Answers b (end_run number) result }
{
    take(b, Call::EndRun { number })
}

// Empty the present run.
pub fn drop_run(b: Book) -> Outcome<()>
    ensures { Answers b drop_run result }
{
    take(b, Call::DropRun)
}

// Empty the present run and what waits for its return.
pub fn drop_section(b: Book) -> Outcome<()>
    ensures { Answers b drop_section result }
{
    take(b, Call::DropSection)
}

// Lift the last section off the line, which opens a loop again that it shut.
pub fn lift_section(b: Book) -> Outcome<()>
    ensures { Answers b lift_section result }
{
    take(b, Call::LiftSection)
}

// The figures of a closed book whose figures fit.
fn figures_that_fit(b: &Book) -> Result<LineFigures, Refusal>
    requires { Fit (state_of b.now) }
    ensures number { number_of result ≡ 0 }
    ensures figures { IfOk result (λ f. f ≡ adjusted_of (closing_of (state_of b.now))) }
{
    let line = &b.line;
    let sections = b.sections.listed();
    adjust::adjusted_line(&line.opening, line.end, &line.sums, sections).ok_or(Refusal::Broken)
}

// What closing gives of the book that it left, or its refusal.
fn closed(taken: Outcome<()>) -> Outcome<LineFigures>
    requires { IfOk taken.answer (λ _. Fit (state_of taken.book)) }
    ensures number { number_of result.answer ≡ number_of taken.answer }
    ensures figures { IfOk result.answer (λ f. f ≡ adjusted_of (closing_of (state_of taken.book))) }
    ensures book { result.book ≡ taken.book }
{
    let book = taken.book;
    let answer = taken.answer.and_then(|()| figures_that_fit(&book));
    Outcome { answer, book }
}

// Close the line on its last benchmark, whose known height is end.
pub fn close_line(b: Book, number: i64, end: i64) -> Outcome<LineFigures>
    ensures { Closes b (close_line number end) result }
{
    closed(take(b, Call::CloseLine { number, end }))
}

// Close the spur on its last benchmark. W is 0, and the heights are start plus running Q, rounded to even.
pub fn close_spur(b: Book, number: i64) -> Outcome<LineFigures>
    ensures { Closes b (close_spur number) result }
{
    closed(take(b, Call::CloseSpur { number }))
}

// The figures of a closed book once more. A book that is not closed is refused, and a broken one.
#[tactic(auto, using(crate::proofs::Closable::closed_fits))]
pub fn figures_of(b: Book) -> Result<LineFigures, Refusal>
    ensures { Tells b result }
{
    check_figures(&b)?;
    figures_that_fit(&b)
}
