// The sums that a line keeps of its sections.
ghost use Rattle.std.specs.Prelude.{◌≡◌, ◌&&◌, true, cond, Some, None};
ghost use Rattle.adjust.specs.declared.SectionSums.{SectionSums};
ghost use Rattle.adjust.specs.Sections.{section_fits};
ghost use Rattle.adjust.specs.Kept.{sums_of, error_of, sums_plus, sums_minus, sums_fit, same_sums, unsummed};
ghost use Rattle.adjust.specs.code.Bounds.{Fitted};

use super::accidental::{accidental_sum, section_error};
use super::sums::sums_of;
use super::terms::squared_of;
use super::{Opening, Section, SectionSums, ranges};

// t of a section.
fn error_of(opening: &Opening, x: &Section) -> i64
    requires { section_fits x.now ≡ true }
    ensures { result ≡ error_of opening.now x.now }
{
    section_error(opening.class.terms(), squared_of(opening.staffs), x)
}

impl SectionSums {
    // Whether they are in the range of 64 sections.
    pub fn fit(&self) -> bool
        ensures { result ≡ sums_fit self.now }
    {
        self.height.unsigned_abs() <= 3200000000
            && self.distance.unsigned_abs() <= 76800000
            && self.accidental.unsigned_abs() <= 320000000000000064
    }

    // With one section more; none where they or the section are out of range.
    pub fn plus(&self, opening: &Opening, x: &Section) -> Option<SectionSums>
        ensures { result ≡ cond (sums_fit self.now && section_fits x.now) (Some (sums_plus opening.now self.now x.now)) None }
    {
        if self.fit() && x.fits() {
            return Some(SectionSums {
                height: self.height + x.height,
                distance: self.distance + x.distance,
                accidental: self.accidental + error_of(opening, x),
            });
        }
        None
    }

    // With one fewer.
    pub fn minus(&self, opening: &Opening, x: &Section) -> Option<SectionSums>
        ensures { result ≡ cond (sums_fit self.now && section_fits x.now) (Some (sums_minus opening.now self.now x.now)) None }
    {
        if self.fit() && x.fits() {
            return Some(SectionSums {
                height: self.height - x.height,
                distance: self.distance - x.distance,
                accidental: self.accidental - error_of(opening, x),
            });
        }
        None
    }

    // Whether they are those of others.
    fn same(&self, others: &SectionSums) -> bool
        ensures { result ≡ same_sums self.now others.now }
    {
        self.height == others.height
            && self.distance == others.distance
            && self.accidental == others.accidental
    }
}

// The sums of sections in range, anew.
fn summed(opening: &Opening, sections: &[Section]) -> SectionSums
    requires { Fitted sections.now }
    ensures { result ≡ sums_of opening.now sections.now }
{
    let (height, distance) = sums_of(sections);
    let accidental = accidental_sum(opening.class.terms(), squared_of(opening.staffs), sections);
    SectionSums {
        height,
        distance,
        accidental,
    }
}

// Whether sections are out of range, or beside sums that are not theirs.
pub fn unsummed(opening: &Opening, kept: &SectionSums, sections: &[Section]) -> bool
    ensures { result ≡ unsummed opening.now kept.now sections.now }
{
    ranges::misfit(sections) || !kept.same(&summed(opening, sections))
}
