// The warnings of a text book, into a lent list.
ghost use Rattle.std.specs.Prelude.{◌≡◌, IfOk};
ghost use Rattle.records.specs.Refusals.{number_of};
ghost use Rattle.warnings.specs.Drift.{drift_of};
ghost use Rattle.warnings.specs.Text.{text_refusal, text_firsts, list_after, count_after};

use super::{Drift, drift_of};
use records::Refusal;
use textbook::reader::read_text;

// The warnings of a text, by windows of so many sections.
pub fn drift_in_text(text: &[u8], window: i64) -> Result<Drift, Refusal>
    ensures number { number_of result ≡ text_refusal text.now window }
    ensures drift { IfOk result (λ d. d ≡ drift_of (text_firsts text.now window)) }
{
    drift_of(&read_text(text)?.book, window)
}

// The same in the form in which it is exported: the answer is document 01's number, the numbers go into the lent list, as far as it has places, and how many there are into `count`.
pub fn level_drift(text: &[u8], window: i64, firsts: &mut [usize], count: &mut usize) -> u8
    ensures value { result ≡ text_refusal text.now window }
    ensures firsts_after { firsts.new ≡ list_after text.now window firsts.old }
    ensures count_after { count.new ≡ count_after text.now window count.old }
{
    match drift_in_text(text, window) {
        Ok(drift) => {
            let found = drift.listed();
            let places = found.len().min(firsts.len());
            firsts[..places].copy_from_slice(&found[..places]);
            *count = drift.count;
            0
        }
        Err(refusal) => refusal.number(),
    }
}
