// The record of a levelling line, and what the rules refuse of each call.
#![tactic(auto)]

use adjust::{Opening, SectionSums, Sections};

mod broken;
pub mod call;
pub mod closing;
pub mod opening;
pub mod refusals;
pub mod standing;

#[derive(Clone, Copy, PartialEq, Eq)]
pub enum Stage {
    Fresh,
    Open,
    Closed,
}

// A run: how many stations, G in half mm or, by measured constants, in tenths of it, s in dm, the sum of d in dm, and the constant of the last fore staff, 0 for none.
// `last` is no Option: 0 is no staff's constant, so that it can say that there is none.
#[derive(Clone, Copy, Default, PartialEq, Eq)]
pub struct Run {
    pub count: usize,
    pub height: i64,
    pub sights: i64,
    pub difference: i64,
    pub last: i64,
}

// An outward run that waits for its return, and the number that it ended on.
#[derive(Clone, Copy)]
pub struct Outward {
    pub number: i64,
    pub run: Run,
}

// All of a line but its finished sections. The end height is 0 until the line is closed, and on a spur: no Option, since the stage and the class say which, and before the line is closed the test of 20 alone looks at it.
#[derive(Clone, Copy)]
pub struct Line {
    pub stage: Stage,
    pub opening: Opening,
    pub end: i64,
    pub sums: SectionSums,
    pub waiting: Option<Outward>,
    pub present: Run,
}

#[derive(Clone, Copy)]
pub struct Book {
    pub line: Line,
    pub sections: Sections,
}
