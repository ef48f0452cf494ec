// The sums of Q and R over the sections of a line, and W.
ghost use Rattle.std.specs.Prelude.{◌≡◌, ◌≤◌, nat_abs};
ghost use Rattle.adjust.specs.Line.{line_height, line_length, closure_by, totals, totals_by};
ghost use Rattle.adjust.specs.Sizes.{highest, most_units, most_sum_q};
ghost use Rattle.adjust.specs.code.Bounds.{OneTo, Fits, Between};

use super::terms::Terms;
use super::{Section, Totals};

// The sums of Q and of R. In a loop: of the iterator's `sum` the check does not find that the sums fit on the way.
pub(crate) fn sums_of(sections: &[Section]) -> (i64, i64)
    requires { Fits sections.now }
    ensures { result ≡ (line_height sections.now, line_length sections.now) }
{
    let mut height = 0;
    let mut distance = 0;
    for x in sections {
        height += x.height;
        distance += x.distance;
    }
    (height, distance)
}

// W and L of these sums, between two known heights; a millimetre is so many units of Q.
pub(crate) fn totals_from(units: i64, start: i64, end: i64, height: i64, distance: i64) -> Totals
    requires { OneTo most_units units × (nat_abs start ≤ highest) × (nat_abs end ≤ highest) × (nat_abs height ≤ most_sum_q) }
    ensures { result ≡ record { closure = closure_by units start end height; distance = distance } }
{
    Totals {
        closure: units * start + height - units * end,
        distance,
    }
}

// Of the sections between them.
pub(crate) fn totals_between(units: i64, start: i64, end: i64, sections: &[Section]) -> Totals
    requires { OneTo most_units units × Between start end sections.now }
    ensures { result ≡ totals units start end sections.now }
{
    let (height, distance) = sums_of(sections);
    totals_from(units, start, end, height, distance)
}

// The same by the class of line: where the end is not known, W is 0.
pub(crate) fn totals_by(terms: Terms, t: Totals) -> Totals
    ensures { result ≡ totals_by terms t }
{
    if terms.tied {
        return t;
    }
    Totals { closure: 0, ..t }
}
