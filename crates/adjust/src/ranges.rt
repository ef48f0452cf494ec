// The ranges that sections are held to.
ghost use Rattle.std.specs.Prelude.{◌≡◌, not, pos};
ghost use Rattle.std.specs.List.{list_any};
ghost use Rattle.numbers.specs.Numbers.{between};
ghost use Rattle.adjust.specs.Sizes.{most_r};
ghost use Rattle.adjust.specs.declared.Section.{Section};
ghost use Rattle.adjust.specs.Sections.{leg_in_range, section_fits, misfit};

use super::Section;

impl Section {
    // Whether R is in its range, which is the same in both.
    fn has_length(&self) -> bool
        ensures { result ≡ between (pos 1) self.now.distance (pos most_r) }
    {
        (1..=1200000).contains(&self.distance)
    }

    // Whether Q and R are in document 01's range.
    fn is_in_range(&self) -> bool
        ensures { result ≡ leg_in_range self.now }
    {
        self.height.unsigned_abs() <= 2500000 && self.has_length()
    }

    // Whether Q, R and D are in the wider one.
    pub fn fits(&self) -> bool
        ensures { result ≡ section_fits self.now }
    {
        self.height.unsigned_abs() <= 50000000
            && self.has_length()
            && self.discrepancy.unsigned_abs() <= 100000
    }
}

// Whether any section is outside document 01's range.
pub(crate) fn any_out_of_range(sections: &[Section]) -> bool
    ensures { result ≡ list_any (λ (x : Section). not (leg_in_range x)) sections.now }
{
    sections.iter().any(|x| !x.is_in_range())
}

// Whether any is outside the wider one. Apart from `misfit`, in whose body the tactics do not join what `any` answers with the count.
fn any_unfit(sections: &[Section]) -> bool
    ensures { result ≡ list_any (λ (x : Section). not (section_fits x)) sections.now }
{
    sections.iter().any(|x| !x.fits())
}

// Whether there are more than 64 sections, or one outside the wider range.
pub(crate) fn misfit(sections: &[Section]) -> bool
    ensures { result ≡ misfit sections.now }
{
    64 < sections.len() || any_unfit(sections)
}
