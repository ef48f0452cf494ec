// The book of one levelling line: its calls.
#![tactic(auto)]

ghost use Rattle.std.specs.Prelude.{◌≡◌};
ghost use Rattle.book.specs.Calls.{fresh_book};

use adjust::prints::PrintUnit;
use adjust::terms::Class;
use adjust::{Section, SectionSums, Sections};
use records::Refusal;
use rules::opening::opening_with;
use rules::{Book, Line, Run, Stage};
use station::Instrument;

pub mod calls;

// What a call answers, what it gives or its refusal, and the book that it leaves: the very book where it is refused, so that it stands beside the answer.
#[derive(Clone, Copy)]
pub struct Outcome<T> {
    pub answer: Result<T, Refusal>,
    pub book: Book,
}

// A book with nothing in it.
pub fn fresh() -> Book
    ensures { result ≡ fresh_book }
{
    let opening = opening_with(Class::Fourth, Instrument::Ds3, 0, 0, PrintUnit::Tenths);
    let line = Line {
        stage: Stage::Fresh,
        opening,
        end: 0,
        sums: SectionSums::default(),
        waiting: None,
        present: Run::default(),
    };
    let sections = Sections {
        count: 0,
        places: [Section::default(); 64],
    };
    Book { line, sections }
}
