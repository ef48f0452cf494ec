// The classes of line, and what each sets: the one table by which the rules go, but for a station's limits (`station::judge`), which are those of its order.
ghost use Rattle.std.specs.Prelude.{◌≡◌, ◌≤◌, pos};
ghost use Rattle.adjust.specs.Terms.{order_of, terms_of, squared_of, scaled};

use station::{Order, Staffs, scale_of};

// What a line is opened as.
// A spur is of fourth order, levelled out and back from a known height to an end that is not known.
#[derive(Clone, Copy, PartialEq, Eq)]
pub enum Class {
    Third,
    Fourth,
    Spur,
}

// A root limit: x is within the root of l where a × x² ≤ b × l.
#[derive(Clone, Copy)]
pub struct Root {
    pub a: u16,
    pub b: u16,
}

#[derive(Clone, Copy)]
pub struct Terms {
    // Whether sections are levelled out and back, by double levelling: 'the first ended run waits; the second is its return'. Where not, 'an ended run is a section'.
    pub double: bool,
    // Whether the line is tied to a known height at its end, and so has a closure.
    pub tied: bool,
    // D, in half mm, against R, in half dm: 'D is within 12 √km', of a spur 20 √km.
    pub apart: Root,
    // W, in quarter mm, against L, in half dm: 'third order (12 √km)', 'fourth (20 √km)'.
    pub closing: Root,
    // The longest line, in half dm: 'L is at most 150 km third, 80 km fourth'.
    pub longest: i64,
    // The longest loop, or levelling circuit, in half dm: 'for a loop 200 and 100 km'.
    pub circuit: i64,
    // The most of T for each section, in hundredths of mm² per km, from 20 sections on: 'T ≤ 3,600 × n', of a spur 10,000 × n.
    pub accidental: i64,
}

impl Class {
    // The order by whose limits the stations of a line are judged.
    pub fn order(self) -> Order
        ensures { result ≡ order_of self }
    {
        match self {
            Class::Third => Order::Third,
            Class::Fourth => Order::Fourth,
            Class::Spur => Order::Fourth,
        }
    }

    // The table.
    pub fn terms(self) -> Terms
        ensures { result ≡ terms_of self }
    {
        match self {
            Class::Third => Terms {
                double: true,
                tied: true,
                apart: Root { a: 625, b: 18 },
                closing: Root { a: 625, b: 72 },
                longest: 3000000,
                circuit: 4000000,
                accidental: 3600,
            },
            // sections of one run have no D and no T: `apart` decides nothing, and there is no verdict
            Class::Fourth => Terms {
                double: false,
                tied: true,
                apart: Root { a: 625, b: 18 },
                closing: Root { a: 25, b: 8 },
                longest: 1600000,
                circuit: 2000000,
                accidental: 0,
            },
            // there is no closure and no limit of length: `closing`, `longest` and `circuit` decide nothing
            Class::Spur => Terms {
                double: true,
                tied: false,
                apart: Root { a: 25, b: 2 },
                closing: Root { a: 25, b: 8 },
                longest: 1600000,
                circuit: 2000000,
                accidental: 10000,
            },
        }
    }
}

// The square of the parts in which the staffs' constants are given, and so also D and W.
pub(crate) fn squared_of(staffs: Staffs) -> i64
    ensures { result ≡ pos (squared_of staffs) }
{
    let scale = scale_of(staffs) as i64;
    scale * scale
}

impl Root {
    // The same limit for these staffs.
    pub(crate) fn scaled(self, staffs: Staffs) -> Root
        requires { self.b ≤ 72 }
        ensures { result ≡ scaled staffs self }
    {
        Root {
            a: self.a,
            b: self.b * squared_of(staffs) as u16,
        }
    }
}
