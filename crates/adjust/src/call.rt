// The adjustment call.
ghost use Rattle.std.specs.Prelude.{◌≡◌, map, ◌≤◌, length};
ghost use Rattle.numbers.specs.Numbers.{over};
ghost use Rattle.records.specs.Refusals.{number_of};
ghost use Rattle.adjust.specs.declared.Point.{Point};
ghost use Rattle.adjust.specs.Sections.{sections_of};
ghost use Rattle.adjust.specs.Call.{adjust_refusal, heights_after};

use super::prints::print_unit_named;
use super::ranges::any_out_of_range;
use super::sums::totals_between;
use super::{Frame, Point, QUARTERS, Section, Sections, height_in_range};
use records::Refusal;

// The refusal of the call for a height list of so many places.
#[tactic(auto, using(crate::proofs::Refused::refusals), unfolding(crate::specs::Call::adjust_refusal))]
fn adjust_refusal(
    start: i64,
    end: i64,
    prints: i64,
    sections: &[Section],
    places: usize,
) -> Result<(), Refusal>
    ensures { number_of result ≡ adjust_refusal start end prints sections.now places }
{
    if sections.is_empty() || 64 < sections.len() {
        return Err(Refusal::SectionCount);
    }
    if places < sections.len() {
        return Err(Refusal::HeightRoom);
    }
    if any_out_of_range(sections) {
        return Err(Refusal::SectionRange);
    }
    if !height_in_range(start) || !height_in_range(end) {
        return Err(Refusal::KnownHeight);
    }
    if print_unit_named(prints).is_none() {
        return Err(Refusal::PrintUnit);
    }
    Ok(())
}

// The heights of the points, into the first places of the list. By index: of `iter_mut` zipped with the points a proof has no name for the list as it stands.
fn put_heights(points: &[Point], heights: &mut [i64])
    requires { length points.now ≤ length heights.old }
    ensures { heights.new ≡ over (map (λ (p : Point). p.height) points.now) heights.old }
{
    for (k, point) in points.iter().enumerate() {
        heights[k] = point.height;
    }
}

// The adjusted heights of the sections between two known heights in mm, one a section, into a lent list: printed in so many units to a millimetre, 1 or 10.
#[tactic(auto, using(crate::proofs::Taken::taken), unfolding(crate::specs::Call::heights_after))]
pub fn adjust(
    start: i64,
    end: i64,
    prints: i64,
    sections: &[Section],
    heights: &mut [i64],
) -> Result<(), Refusal>
    ensures number { number_of result ≡ adjust_refusal start end prints sections.now (length heights.old) }
    ensures heights { heights.new ≡ heights_after start end prints sections.now heights.old }
{
    adjust_refusal(start, end, prints, sections, heights.len())?;
    let t = totals_between(QUARTERS, start, end, sections);
    let points = Frame::new(QUARTERS, prints, start, t).points(0, sections);
    put_heights(&points[1..=sections.len()], heights);
    Ok(())
}

impl Sections {
    // The call over sections in an array. More than there are places are refused, and not cut to what `listed` gives.
    #[tactic(auto, using(crate::proofs::Arrays::arrays))]
    pub fn adjust(
        &self,
        start: i64,
        end: i64,
        prints: i64,
        heights: &mut [i64],
    ) -> Result<(), Refusal>
        ensures number { number_of result ≡ adjust_refusal start end prints (sections_of self.now) (length heights.old) }
        ensures heights { heights.new ≡ heights_after start end prints (sections_of self.now) heights.old }
    {
        if 64 < self.count {
            return Err(Refusal::SectionCount);
        }
        adjust(start, end, prints, self.listed(), heights)
    }
}
