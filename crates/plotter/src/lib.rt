// The profile of a closed line for the plotting program: pairs of floats, each equal to a whole number of the book, and their differences (document 02, W-213).
#![tactic(auto)]

ghost use Rattle.std.specs.Prelude.{◌≡◌, ◌≤◌, nat_abs};
ghost use Rattle.adjust.specs.Sizes.{highest};
ghost use Rattle.adjust.specs.code.Bounds.{LegBounds};
ghost use Rattle.plotter.specs.Profile.{start_mark, next_mark, pair_of};
ghost use Rattle.plotter.specs.Floats.{difference};
ghost use Rattle.plotter.specs.code.Reached.{Reached};

use adjust::{Opening, Section, units_of};

pub mod entry;
pub mod profile;

// A point of the profile in whole numbers: its distance from the start in half dm, and its raw height, start plus running Q, in the units of Q.
#[derive(Clone, Copy)]
struct Mark {
    distance: i64,
    height: i64,
}

// A point as the plotting program takes it.
#[repr(C)]
#[derive(Clone, Copy)]
pub struct Pair {
    pub distance: f64,
    pub height: f64,
}

impl Mark {
    // The start of a line.
    fn start(opening: &Opening) -> Mark
        requires { nat_abs opening.now.start.height ≤ highest }
        ensures { result ≡ start_mark opening.now }
    {
        Mark {
            distance: 0,
            height: units_of(opening.staffs) * opening.start.height,
        }
    }

    // The point at the end of the section that begins here.
    fn next(self, x: &Section) -> Mark
        requires { Reached 63 self × LegBounds x.now }
        ensures { result ≡ next_mark self x.now }
    {
        Mark {
            distance: self.distance + x.distance,
            height: self.height + x.height,
        }
    }

    // Each number as the float that is equal to it.
    fn pair(self) -> Pair
        requires { Reached 64 self }
        ensures { result ≡ pair_of self }
    {
        Pair {
            distance: self.distance as f64,
            height: self.height as f64,
        }
    }
}

// From one point to another: of neighbours R and Q, since no bit is lost.
pub fn difference(from: Pair, to: Pair) -> Pair
    ensures { result ≡ difference from to }
{
    Pair {
        distance: to.distance - from.distance,
        height: to.height - from.height,
    }
}
