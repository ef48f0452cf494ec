// A text read line by line into a book and the refusals of its lines, which are written in place.
ghost use Rattle.std.specs.Prelude.{◌≡◌, ◌+◌, ◌≤◌, length};
ghost use Rattle.records.specs.Refusals.{number_of};
ghost use Rattle.columns.specs.Texts.{lines};
ghost use Rattle.ledger.specs.Entries.{entry_number, entry_book};
ghost use Rattle.textbook.specs.Text.{most_text, line_entry};
ghost use Rattle.textbook.specs.code.State.{text_from, fresh_state, after_heading, text_state};

use book::calls::enter;
use columns::parser::{is_heading, parse_line};
use records::{Refusal, number_of};
use rules::Book;
use rules::call::Call;

// What a text leaves: the book, and each line's refusal number in the line's place, 0 where it was taken or not read. Numbers and no Options of a refusal: the report
// prints them.
#[derive(Clone, Copy)]
pub struct State {
    pub book: Book,
    pub refusals: [u8; 778],
}

// The text from line `number` on, counted from 1; no bytes where it has no such line.
fn text_from(text: &[u8], number: usize) -> &[u8]
    ensures { result.now ≡ text_from text.now number }
{
    if number == 0 {
        return &[];
    }
    let at = (number - 1).saturating_mul(84);
    text.get(at..).unwrap_or(&[])
}

// A line of the text after the heading: its record, taken of the book in its place. Two lines as those that take an entry of a list of numbers, but for the parser.
pub fn take_line(book: &mut Book, bytes: &[u8]) -> Result<(), Refusal>
    ensures number { number_of result ≡ entry_number book.old (line_entry bytes.now) }
    ensures book { book.new ≡ entry_book book.old (line_entry bytes.now) }
{
    let record = parse_line(bytes)?;
    enter(book, &Call::from(record))
}

// Before anything is read.
pub fn fresh() -> State
    ensures { result ≡ fresh_state }
{
    State {
        book: book::fresh(),
        refusals: [0; 778],
    }
}

// The lines after the heading, one after the other, of a text that is not too long, into the book and the places of a fresh state. The first of them is line 2.
fn read_lines(text: &[u8], book: &mut Book, refusals: &mut [u8; 778])
    requires short { 84 + length text.now ≤ most_text }
    requires fresh_book { book.old ≡ fresh_state.book }
    requires fresh_places { refusals.old ≡ fresh_state.refusals }
    ensures { record { book = book.new; refusals = refusals.new } ≡ after_heading (lines text.now) }
{
    for (k, line) in text.chunks(84).enumerate() {
        // By index: where a line goes is its number, and of places that `iter_mut` lends the proof would know nothing.
        refusals[k + 2] = number_of(take_line(book, line));
    }
}

// What is left of a text from line `first` on, read as a text of its own into a fresh state: that line is its heading, and without it nothing is read.
#[tactic(auto, using(crate::proofs::Lines::with_heading, crate::proofs::Lines::without_heading, crate::proofs::Lines::no_heading))]
pub(crate) fn read_from(text: &[u8], first: usize, state: &mut State)
    requires short { length text.now ≤ most_text }
    requires fresh { state.old ≡ fresh_state }
    ensures { state.new ≡ text_state (lines (text_from text.now first)) }
{
    match text_from(text, first).split_at_checked(84) {
        Some((line, rest)) if is_heading(line) => read_lines(
            rest,
            &mut state.book,
            &mut state.refusals,
        ),
        _ => state.refusals[1] = Refusal::NotARecord.number(),
    }
}
