// The points of a line: from the known height at its start, in mm, and its W and L.
ghost use Rattle.std.specs.Prelude.{◌≡◌, ◌≤◌, nat_abs, ◌+ℤ◌};
ghost use Rattle.numbers.specs.Numbers.{filled};
ghost use Rattle.adjust.specs.Sizes.{most_sum_q};
ghost use Rattle.adjust.specs.Line.{line_length, frame, exact_top, printed_height, point_after, points};
ghost use Rattle.adjust.specs.Frames.{no_point};
ghost use Rattle.adjust.specs.code.Bounds.{Fits, LegBounds, Framed, Along, Reached};

use super::{Frame, Point, Section, Totals};
use roots::rounding::round_half_even;

// `Framed` stands in what the methods require, and in no ghost field: definitions of specs/ make frames of any five numbers.
impl Frame {
    pub(crate) fn new(units: i64, prints: i64, start: i64, t: Totals) -> Frame
        ensures { result ≡ frame units prints start t }
    {
        Frame {
            units,
            prints,
            start,
            closure: t.closure,
            total: t.distance,
        }
    }

    // units * L times the exact height, in print units, at the running sums q of Q and s of R.
    fn exact_top(self, q: i64, s: i64) -> i64
        requires { Framed self × (nat_abs q ≤ most_sum_q) × Along self s }
        ensures { result ≡ exact_top self q s }
    {
        self.prints * (self.units * self.start * self.total + q * self.total - self.closure * s)
    }

    fn printed_height(self, q: i64, s: i64) -> i64
        requires { Framed self × (nat_abs q ≤ most_sum_q) × Along self s }
        ensures { result ≡ printed_height self q s }
    {
        round_half_even(self.exact_top(q, s), self.units * self.total)
    }

    // The point at the end of the section x, which ends on the line, after the point p at the running sum q of Q.
    fn next_point(self, q: i64, p: Point, x: &Section) -> Point
        requires { Framed self × Reached self 63 q p × LegBounds x.now × Along self (p.distance +ℤ x.now.distance) }
        ensures { result ≡ point_after self q p.distance p.height x.now }
    {
        let s = p.distance + x.distance;
        let h = self.printed_height(q + x.height, s);
        Point {
            number: x.number,
            distance: s,
            correction: self.units * (h - p.height) - self.prints * x.height,
            height: h,
        }
    }

    // The start, under its number, and a point for each section. By index, as `put_heights` writes.
    pub(crate) fn points(self, number: i64, sections: &[Section]) -> [Point; 65]
        requires { Framed self × Fits sections.now × (self.total ≡ line_length sections.now) }
        ensures { result ≡ filled no_point 65 (points self number sections.now) }
    {
        let mut point = Point {
            number,
            distance: 0,
            correction: 0,
            height: self.prints * self.start,
        };
        let mut points = [Point::default(); 65];
        points[0] = point;
        let mut q = 0;
        for (k, x) in sections.iter().enumerate() {
            point = self.next_point(q, point, x);
            points[k + 1] = point;
            q += x.height;
        }
        points
    }
}
