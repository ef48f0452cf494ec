// What each call makes of a book: a change, which is no book yet.
#![tactic(auto)]

use adjust::Section;
use rules::Line;

pub mod decisions;
mod effects;
pub mod storing;

// What becomes of the list of the sections: it stays, a section is finished, or the last one is lifted.
#[derive(Clone, Copy)]
pub enum Shift {
    Same,
    Finished(Section),
    Lifted,
}

// What a call that is taken changes of a book: the line that it leaves, and the list of its sections. It holds no array.
#[derive(Clone, Copy)]
pub struct Change {
    pub line: Line,
    pub shift: Shift,
}
