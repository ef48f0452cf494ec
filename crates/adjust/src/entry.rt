// The adjustment call over a lent list of legs.
ghost use Rattle.std.specs.Prelude.{◌≡◌, ◌≤◌, length};
ghost use Rattle.numbers.specs.Numbers.{filled};
ghost use Rattle.adjust.specs.Sections.{no_section};
ghost use Rattle.adjust.specs.Call.{adjust_refusal, heights_after};
ghost use Rattle.adjust.specs.Legs.{leg_section, leg_sections};

use super::Section;
use super::call::adjust;
use records::{Refusal, number_of};

// A section as it is lent: its height difference Q in quarter mm, its distance R in half dm.
#[repr(C)]
#[derive(Clone, Copy)]
pub struct Leg {
    pub height: i64,
    pub distance: i64,
}

// Under no number and with no discrepancy.
impl From<Leg> for Section {
    ghost from_gives = { λ x r. r ≡ leg_section x };

    fn from(leg: Leg) -> Section {
        Section {
            height: leg.height,
            distance: leg.distance,
            ..Section::default()
        }
    }
}

// The legs as sections, and zeros behind them. By index: of `iter_mut` zipped with the legs a proof has no name for the array as it stands, and of `from_fn` it
// knows each call and not the list.
fn sections_from(legs: &[Leg]) -> [Section; 64]
    requires { length legs.now ≤ 64 }
    ensures { result ≡ filled no_section 64 (leg_sections legs.now) }
{
    let mut places = [Section::default(); 64];
    for (k, leg) in legs.iter().enumerate() {
        places[k] = Section::from(*leg);
    }
    places
}

// The adjusted heights of the lent legs between two known heights, one a leg, printed in so many units to a millimetre, into the lent list; the answer is the
// documents' number, 0 for a call that is taken. More than 64 legs are refused before they are read. A number and no `Result`: C has the answer so.
#[tactic(auto, using(crate::proofs::Legs::legs))]
pub fn level_adjust(legs: &[Leg], start: i64, end: i64, prints: i64, heights: &mut [i64]) -> u8
    ensures number { result ≡ adjust_refusal start end prints (leg_sections legs.now) (length heights.old) }
    ensures heights { heights.new ≡ heights_after start end prints (leg_sections legs.now) heights.old }
{
    if 64 < legs.len() {
        return Refusal::SectionCount.number();
    }
    let places = sections_from(legs);
    number_of(adjust(start, end, prints, &places[..legs.len()], heights))
}
