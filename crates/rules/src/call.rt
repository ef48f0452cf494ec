// A call of a book with its arguments, and the call that a record asks for.
ghost use Rattle.std.specs.Prelude.{◌≡◌};
ghost use Rattle.rules.specs.Records.{call_of};

use records::{Record, Tag};

// The numbers are what a caller gives, in any range: the rules judge them.
#[derive(Clone, Copy, PartialEq, Eq)]
pub enum Call {
    // Open the line: order 3 or 4, instrument 3 for DS3 or 1 for DS1 and DS05, the start's number and its height in mm, and the print unit, 1 or 10 to the millimetre.
    OpenLine {
        order: i64,
        instrument: i64,
        number: i64,
        height: i64,
        prints: i64,
    },
    // A station: the constants and the readings, back and fore.
    Station {
        kb: i64,
        kf: i64,
        readings: [[i64; 4]; 2],
    },
    // End the present run on a benchmark.
    EndRun {
        number: i64,
    },
    // Empty the present run.
    DropRun,
    // Empty the present run and what waits for its return.
    DropSection,
    // Close the line on its last benchmark, whose known height is end.
    CloseLine {
        number: i64,
        end: i64,
    },
    // Open a spur: as a line, of order 4.
    OpenSpur {
        order: i64,
        instrument: i64,
        number: i64,
        height: i64,
        prints: i64,
    },
    // Close the spur on its last benchmark.
    CloseSpur {
        number: i64,
    },
    // The collimation test: A1, B1, A2, B2, each the sum of four readings, and the distances D1 and D2, all in mm.
    Collimation {
        values: [i64; 6],
    },
    // The staffs' measured constants, in tenths of a millimetre, of the staff 4,687 first.
    Constants {
        first: i64,
        second: i64,
    },
    // Lift the last section off the line.
    LiftSection,
}

impl From<Record> for Call {
    ghost from_gives = { λ x r. r ≡ call_of x.tag x.values };

    fn from(asked: Record) -> Call {
        let [a, b, c, d, e, f, g, h, i, j] = asked.values;
        match asked.tag {
            Tag::Lin => Call::OpenLine {
                order: a,
                instrument: b,
                number: c,
                height: d,
                prints: e,
            },
            Tag::Sta => Call::Station {
                kb: a,
                kf: f,
                readings: [[b, c, d, e], [g, h, i, j]],
            },
            Tag::Run => Call::EndRun { number: a },
            Tag::Drr => Call::DropRun,
            Tag::Drs => Call::DropSection,
            Tag::End => Call::CloseLine { number: a, end: b },
            Tag::Spr => Call::OpenSpur {
                order: a,
                instrument: b,
                number: c,
                height: d,
                prints: e,
            },
            Tag::Fin => Call::CloseSpur { number: a },
            Tag::Ang => Call::Collimation {
                values: [a, b, c, d, e, f],
            },
            Tag::Kon => Call::Constants {
                first: a,
                second: b,
            },
            Tag::Lft => Call::LiftSection,
        }
    }
}
