// The adjustment call for C: a thin name for it. In C each list is a pointer and a length.
#![tactic(auto)]

ghost use Rattle.std.specs.Prelude.{◌≡◌, length};
ghost use Rattle.adjust.specs.Call.{adjust_refusal, heights_after};
ghost use Rattle.adjust.specs.Legs.{leg_sections};

use adjust::entry::Leg;

// The adjusted heights of the lent legs between two known heights, one a leg, printed in so many units to a millimetre, into the lent list; the answer is the
// documents' number, 0 for a call that is taken.
#[unsafe(no_mangle)]
pub extern "C" fn level_adjust(
    legs: &[Leg],
    start: i64,
    end: i64,
    prints: i64,
    heights: &mut [i64],
) -> u8
    ensures number { result ≡ adjust_refusal start end prints (leg_sections legs.now) (length heights.old) }
    ensures heights { heights.new ≡ heights_after start end prints (leg_sections legs.now) heights.old }
{
    adjust::entry::level_adjust(legs, start, end, prints, heights)
}
