// Entries of a book in a lent list of numbers, 11 an entry (specs/Calls.antt).
#![tactic(auto)]

ghost use Rattle.std.specs.Prelude.{◌≡◌, length, set};
ghost use Rattle.numbers.specs.Numbers.{written};
ghost use Rattle.records.specs.Refusals.{number_of};
ghost use Rattle.ledger.specs.Plain.{book_of};
ghost use Rattle.ledger.specs.Entries.{entry_number, entry_book};
ghost use Rattle.runner.specs.Calls.{tag_of, first_record, first_entry, entries_of, reading_after, numbers_of};
ghost use Rattle.runner.specs.Figures.{book_figures};

use book::calls::enter;
use records::{Record, Refusal, Tag, number_of};
use rules::Book;
use rules::call::Call;

mod figures;

// The tag of a kind. No `TryFrom`: the kinds are this crate's, and neither `i64` nor the tag is.
#[tactic(auto, unfolding(crate::specs::Calls::tag_of))]
fn tag_of(number: i64) -> Option<Tag>
    ensures { result ≡ tag_of number }
{
    match number {
        1 => Some(Tag::Lin),
        2 => Some(Tag::Sta),
        3 => Some(Tag::Run),
        4 => Some(Tag::Drr),
        5 => Some(Tag::Drs),
        6 => Some(Tag::End),
        7 => Some(Tag::Spr),
        8 => Some(Tag::Fin),
        9 => Some(Tag::Ang),
        10 => Some(Tag::Kon),
        11 => Some(Tag::Lft),
        _ => None,
    }
}

// The record at the front of a list: its kind, then its numbers.
#[tactic(auto, unfolding(crate::specs::Calls::first_record))]
fn first_record(list: &[i64]) -> Result<Record, Refusal>
    ensures { result ≡ first_record list.now }
{
    let (kind, values) = list.split_first().ok_or(Refusal::NotARecord)?;
    let tag = tag_of(*kind).ok_or(Refusal::NotARecord)?;
    let values = values.first_chunk().copied().ok_or(Refusal::NotARecord)?;
    Ok(Record { tag, values })
}

// The first entry of a list, taken of the book in its place. Two lines as those that take a text's line, but for the parser, in a crate that knows no texts.
fn take_first(book: &mut Book, list: &[i64]) -> Result<(), Refusal>
    ensures number { number_of result ≡ entry_number book.old (first_entry list.now) }
    ensures book { book.new ≡ entry_book book.old (first_entry list.now) }
{
    let record = first_record(list)?;
    enter(book, &Call::from(record))
}

// The number of an entry into its place of the lent list, where there is one. (Of a write through `get_mut` a proof knows no element.)
fn put_number(numbers: &mut [u8], k: usize, number: u8)
    ensures { numbers.new ≡ set numbers.old k number }
{
    if k < numbers.len() {
        numbers[k] = number;
    }
}

// The entries one after another, the first on a fresh book. Each entry's number goes into its place of the lent list, where there is one.
pub fn run_calls(calls: &[i64], numbers: &mut [u8]) -> Book
    ensures book { result ≡ book_of (reading_after calls.now) }
    ensures numbers { numbers.new ≡ written (numbers_of calls.now) numbers.old }
{
    let mut book = book::fresh();
    for (k, entry) in calls.chunks(11).enumerate() {
        let number = number_of(take_first(&mut book, entry));
        put_number(numbers, k, number);
    }
    book
}

// The same in the form in which it is exported: the figures of the book that the entries leave go into the second lent list,
// as far as it has places. The answer is how many entries there are, whether or not their numbers had places.
pub fn level_run(calls: &[i64], numbers: &mut [u8], figures: &mut [i64]) -> usize
    ensures count { result ≡ length (entries_of calls.now) }
    ensures numbers { numbers.new ≡ written (numbers_of calls.now) numbers.old }
    ensures figures { figures.new ≡ written (book_figures (book_of (reading_after calls.now))) figures.old }
{
    let book = run_calls(calls, numbers);
    figures::put_book(&book, figures);
    calls.len().div_ceil(11)
}
