// A line and its finished sections, as they stand in a book that is not broken, and the benchmarks on the line.
ghost use Rattle.std.specs.Prelude.{◌≡◌, IfOk, cond, true, false, length};
ghost use Rattle.rules.specs.LineState.{line_broken};

use super::broken::line_broken;
use super::{Book, Line};
use adjust::Section;
use records::Refusal;

#[derive(Clone, Copy)]
pub struct Standing<'a> {
    pub line: &'a Line,
    pub sections: &'a [Section],
    ghost unbroken: { line_broken line.now (length sections.now) ≡ false },
}

impl<'a> Standing<'a> {
    ghost use Rattle.records.specs.Refusals.{number_of};
    ghost use Rattle.rules.specs.LineState.{state_of, on_line, is_shut, began};
    ghost use Rattle.rules.specs.Rules.{all_broken, last_broken, broken_in, number_allowed};
    ghost use Rattle.rules.specs.code.Standing.{standing_of, last_in};

    // Those of a book; 20 where its line is broken.
    #[tactic(auto, using(crate::proofs::Unbroken::few, adjust::proofs::Holding::sections_count))]
    pub(crate) fn of(b: &'a Book) -> Result<Self, Refusal>
        ensures number { number_of result ≡ cond (broken_in false (state_of b.now)) 20 0 }
        ensures state { IfOk result (λ s. standing_of s ≡ state_of b.now) }
    {
        if line_broken(b) {
            return Err(Refusal::Broken);
        }
        Ok(Standing {
            line: &b.line,
            sections: b.sections.listed(),
        })
    }

    // For a call that reads all sections: 20 also where one of them does not fit, or where the sums that are kept are not theirs.
    pub fn of_read(b: &'a Book) -> Result<Self, Refusal>
        ensures number { number_of result ≡ cond (broken_in (all_broken (state_of b.now)) (state_of b.now)) 20 0 }
        ensures state { IfOk result (λ s. standing_of s ≡ state_of b.now) }
    {
        if b.sections.unsummed(&b.line.opening, &b.line.sums) {
            return Err(Refusal::Broken);
        }
        Standing::of(b)
    }

    // For a call that reads the last section: 20 also where that one does not fit.
    pub(crate) fn of_last(b: &'a Book) -> Result<Self, Refusal>
        ensures number { number_of result ≡ cond (broken_in (last_broken (state_of b.now)) (state_of b.now)) 20 0 }
        ensures state { IfOk result (λ s. standing_of s ≡ state_of b.now) }
    {
        let standing = Standing::of(b)?;
        if standing.is_last_broken() {
            return Err(Refusal::Broken);
        }
        Ok(standing)
    }

    // The last section, if there is one.
    pub(crate) fn last(&self) -> Option<Section>
        ensures { result ≡ last_in self.now.sections.now }
    {
        self.sections.last().copied()
    }

    // Whether there is one that does not fit.
    fn is_last_broken(&self) -> bool
        ensures { result ≡ last_broken (standing_of self.now) }
    {
        self.last().is_some_and(|section| !section.fits())
    }

    // Whether a finished section ends on the benchmark.
    pub(crate) fn on_line(&self, number: i64) -> bool
        ensures { result ≡ on_line (standing_of self.now) number }
    {
        self.sections.iter().any(|section| section.number == number)
    }

    // Whether one ends on the start.
    pub(crate) fn is_shut(&self) -> bool
        ensures { result ≡ is_shut (standing_of self.now) }
    {
        self.on_line(self.line.opening.start.number)
    }

    // The benchmark where the present section began.
    pub(crate) fn began(&self) -> i64
        ensures { result ≡ began (standing_of self.now) }
    {
        let start = self.line.opening.start.number;
        self.sections.last().map_or(start, |section| section.number)
    }

    // Whether a run may end on the benchmark.
    pub(crate) fn number_allowed(&self, number: i64) -> bool
        ensures { result ≡ number_allowed (standing_of self.now) number }
    {
        let line = self.line;
        if line.waiting.is_some() {
            return number == self.began();
        }
        let start_allowed = !self.sections.is_empty() && line.opening.class.terms().tied;
        !self.on_line(number) && (number != line.opening.start.number || start_allowed)
    }
}
