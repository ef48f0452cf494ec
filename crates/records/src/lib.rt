// The records of a levelling book, one for each call, named by its tag in the text book (document 01, 'The text book and the report'; document 02, W-202 to W-204 and W-210), and the
// refusals of calls.
#![tactic(auto)]

ghost use Rattle.std.specs.Prelude.{◌≡◌};
ghost use Rattle.records.specs.Refusals.{refusal_number, number_of};

#[derive(Clone, Copy, PartialEq, Eq)]
pub enum Tag {
    // open the line
    Lin,
    // a station
    Sta,
    // end the present run
    Run,
    // drop the present run
    Drr,
    // drop the present section
    Drs,
    // close the line
    End,
    // open a spur
    Spr,
    // close the spur
    Fin,
    // the collimation test
    Ang,
    // the staffs' measured constants
    Kon,
    // lift the last section
    Lft,
}

// A record: its tag and its numbers. Places past the numbers that its tag has are not looked at.
// No enum with its numbers in the variants: it is what a line of a text or an entry of a list says before it is a call, and the call has the arguments.
#[derive(Clone, Copy, PartialEq, Eq)]
pub struct Record {
    pub tag: Tag,
    pub values: [i64; 10],
}

// Why a call is refused, under the number that the documents give the reason.
#[derive(Clone, Copy, PartialEq, Eq)]
pub enum Refusal {
    // a text line of the wrong shape or with an unknown tag; in a list of numbers an unknown kind, or too few numbers
    NotARecord = 1,
    // a field that is not a number
    BadField = 2,
    // an order or an instrument that a line cannot be opened with
    OrderOrInstrument = 3,
    // a benchmark's number outside its range
    BenchmarkNumber = 4,
    // a known height outside its range
    KnownHeight = 5,
    // a reading outside its range
    Reading = 6,
    // constants that are not those of the two staffs
    Constants = 7,
    // threads that are not in order
    ThreadOrder = 8,
    // a text of more bytes than a book has
    TextTooLong = 9,
    // a report buffer that is too small
    ReportRoom = 10,
    // no section to adjust, or too many
    SectionCount = 11,
    // among them a height difference or a length outside its range
    SectionRange = 12,
    // a height list with too few places
    HeightRoom = 13,
    // a record handed in as a book that no calls leave
    Broken = 20,
    // a call that the book's stage does not allow
    Stage = 21,
    // a run that has all the stations it can have
    RunFull = 22,
    // a back staff that is not the one due
    StaffTurn = 23,
    // a sight that is too long
    Sight = 24,
    // sights that differ too much
    SightDifference = 25,
    // differences of sights that add up to too much
    AccumulatedDifference = 26,
    // faces of a staff that disagree
    FaceDifference = 27,
    // heights by black and by red that disagree
    HeightByFaces = 28,
    // the end of a run of no station or an odd number of them
    StationCount = 29,
    // a benchmark that a run may not end on
    BenchmarkPlace = 30,
    // an outward run ended with all sections standing
    BookFull = 31,
    // a section levelled out and back whose runs disagree
    Discrepancy = 32,
    // a closing with stations or a run left over, or with no section
    Unfinished = 33,
    // a closing on another benchmark than the last, or of a loop on another height than its start's
    ClosingBenchmark = 34,
    // a line that is too long
    LineLength = 35,
    // a closure beyond its limit
    Closure = 36,
    // END on a spur, or FIN on a line that is none
    ClosingKind = 41,
    // a measured constant outside its range
    ConstantsRange = 42,
    // measured constants anywhere but directly after the line or the spur was opened
    ConstantsPlace = 43,
    // a value of the collimation test outside its range
    CollimationRange = 44,
    // an i angle beyond its limit, or a second test taken on a line
    Collimation = 45,
    // a station before a collimation test was taken
    NotCollimated = 46,
    // for warnings of drift: a window outside its range, or a line whose sections are levelled one way
    DriftWindow = 51,
    // a run shot again that cannot be judged: a line that is no station taken, no even number of stations, or figures of the opposite run outside their ranges
    RepeatedRun = 52,
    // a lift where no section stands, or a run is present or waiting
    LiftPlace = 53,
    // a profile of a line that is not closed, or a buffer too short for its points
    Profile = 56,
    // a print unit other than millimetres and tenths of them
    PrintUnit = 57,
}

impl Refusal {
    // Its number in the documents.
    pub fn number(self) -> u8
        ensures { result ≡ refusal_number self }
    {
        self as u8
    }
}

// The number of an answer, 0 for a call that is taken.
pub fn number_of<T: Copy>(answer: Result<T, Refusal>) -> u8
    ensures { result ≡ number_of answer }
{
    match answer {
        Ok(_) => 0,
        Err(refusal) => refusal.number(),
    }
}
