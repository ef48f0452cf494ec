// The accidental error: t of a section, T of a line, and the verdict.
// The bounds stand in each contract: a slice of sections that is lent has no type that carries them.
ghost use Rattle.std.specs.Prelude.{◌≡◌, ◌≤◌, nat_abs};
ghost use Rattle.adjust.specs.Sizes.{most_d, most_allowed, most_squared};
ghost use Rattle.adjust.specs.Line.{accidental, section_error, accidental_sum, verdict};
ghost use Rattle.adjust.specs.code.Bounds.{OneTo, Fitted, LegBounds};

use super::terms::Terms;
use super::{Section, Verdict};
use roots::rounding::round_half_even;

// t of a section. `squared` is the square of the parts of half a millimetre that D is in: 1 for half mm.
fn accidental(squared: i64, x: &Section) -> i64
    requires { OneTo most_squared squared × (nat_abs x.now.discrepancy ≤ most_d) × LegBounds x.now }
    ensures { result ≡ accidental (nat_abs squared) x.now }
{
    let d = x.discrepancy;
    round_half_even(500000 * (d * d), squared * x.distance)
}

// The same by the class of line: 0 where sections are levelled one way.
pub(crate) fn section_error(terms: Terms, squared: i64, x: &Section) -> i64
    requires { OneTo most_squared squared × (nat_abs x.now.discrepancy ≤ most_d) × LegBounds x.now }
    ensures { result ≡ section_error terms (nat_abs squared) x.now }
{
    if terms.double {
        accidental(squared, x)
    } else {
        0
    }
}

// T, in a loop, as the sum of Q is (`sums_of`).
pub(crate) fn accidental_sum(terms: Terms, squared: i64, sections: &[Section]) -> i64
    requires { OneTo most_squared squared × Fitted sections.now }
    ensures { result ≡ accidental_sum terms (nat_abs squared) sections.now }
{
    let mut t = 0;
    for x in sections {
        t += section_error(terms, squared, x);
    }
    t
}

// The verdict on a T of so many sections.
pub(crate) fn verdict_of(terms: Terms, count: usize, t: i64) -> Verdict
    requires { (count ≤ 64) × (nat_abs terms.accidental ≤ most_allowed) }
    ensures { result ≡ verdict terms count t }
{
    if !terms.double || count < 20 {
        Verdict::NotGiven
    } else if t <= terms.accidental * count as i64 {
        Verdict::Within
    } else {
        Verdict::Above
    }
}
