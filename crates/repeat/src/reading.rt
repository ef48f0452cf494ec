// The run of a text of stations.
ghost use Rattle.std.specs.Prelude.{◌≡◌, ◌&&◌, cond, eqb, nat_eq, IsTrue, IfOk};
ghost use Rattle.std.specs.List.{starts_with};
ghost use Rattle.records.specs.Refusals.{number_of};
ghost use Rattle.records.specs.declared.Tag.TheVariants.{Sta};
ghost use Rattle.columns.specs.Records.{letters};
ghost use Rattle.rules.specs.code.Bounds.{SmallRun};
ghost use Rattle.ledger.specs.Plain.{book_of};
ghost use Rattle.ledger.specs.Entries.{entry_number, entry_book};
ghost use Rattle.textbook.specs.Text.{line_entry};
ghost use Rattle.repeat.specs.Repeat.{ready, is_run, run_in};

use adjust::terms::Class;
use records::Refusal;
use rules::{Book, Run, Stage};
use station::Instrument;
use textbook::text::take_line;

// An open line with a tested level and nothing in it.
fn ready(class: Class, instrument: Instrument) -> Book
    ensures { result ≡ book_of (ready class instrument) }
{
    let mut book = book::fresh();
    book.line.stage = Stage::Open;
    book.line.opening.class = class;
    book.line.opening.instrument = instrument;
    book.line.opening.collimated = true;
    book.line.opening.touched = true;
    book
}

// Takes a line as a station: whether it is one that is taken.
fn take_station(book: &mut Book, line: &[u8]) -> bool
    ensures taken { result ≡ starts_with nat_eq line.now (letters Sta) && eqb (entry_number book.old (line_entry line.now)) 0 }
    ensures book_after { IsTrue result → book.new ≡ entry_book book.old (line_entry line.now) }
{
    line.starts_with(b"STA") && take_line(book, line).is_ok()
}

// Stops at the first line that is no station taken, at 201 stations at the latest.
pub(crate) fn read_run(text: &[u8], class: Class, instrument: Instrument) -> Result<Run, Refusal>
    ensures number { number_of result ≡ cond (is_run class instrument text.now) 0 52 }
    ensures run { IfOk result (λ u. u ≡ run_in class instrument text.now) }
    ensures small { IfOk result (λ u. SmallRun u) }
{
    let mut book = ready(class, instrument);
    for line in text.chunks(84) {
        if !take_station(&mut book, line) {
            return Err(Refusal::RepeatedRun);
        }
    }
    let run = book.line.present;
    if run.count == 0 || run.count % 2 == 1 {
        return Err(Refusal::RepeatedRun);
    }
    Ok(run)
}
