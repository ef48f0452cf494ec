// A station's figures, and the rules that look at one station alone. Readings are back and fore, each upper thread, lower thread,
// black middle and red middle in mm; kb and kf are the constants of the back and the fore staff.
#![tactic(auto)]

ghost use Rattle.std.specs.Prelude.{◌≡◌, true, cond, ◌&&◌, ◌+◌, ◌≤◌, leb, nat_abs, ◌+ℤ◌, ◌-ℤ◌, IfOk};
ghost use Rattle.numbers.specs.Numbers.{within};
ghost use Rattle.numbers.specs.Tables.{first_of};
ghost use Rattle.records.specs.Refusals.{number_of};
ghost use Rattle.station.specs.code.Bounds.{SmallSighting, Small};
ghost use Rattle.station.specs.Station.{staff_of, station_of, sighting_of, twice_height, figures_of, readings_in_range, threads_in_order, constants_paired, reading_tests, Reads, scale_of, constant_of, sight_limit, limits_of, limit_tests};

use records::Refusal;

#[derive(Clone, Copy, PartialEq, Eq)]
pub enum Order {
    Third,
    Fourth,
}

// DS3, or one of the better instruments, DS1 and DS05.
#[derive(Clone, Copy, PartialEq, Eq)]
pub enum Instrument {
    Ds3,
    Ds1,
}

// The constants of the two staffs: the nominal 4,687 and 4,787 mm, or those that were measured, in tenths of a millimetre, of the staff 4,687 first.
// No Option: nominal constants are constants too, and not the lack of any.
#[derive(Clone, Copy, PartialEq, Eq)]
pub enum Staffs {
    Nominal,
    Measured(u16, u16),
}

// A staff's constant K, the nominal one, and its four readings, in mm.
#[derive(Clone, Copy)]
pub struct Staff {
    pub constant: i64,
    pub upper: i64,
    pub lower: i64,
    pub black: i64,
    pub red: i64,
}

#[derive(Clone, Copy)]
pub struct Station {
    pub back: Staff,
    pub fore: Staff,
}

// The limits that an order and an instrument set: dm for sights; for faces mm, or the part of it in which the constants are given.
#[derive(Clone, Copy)]
pub struct Limits {
    pub sight: u64,
    pub difference: u64,
    pub accumulated: u64,
    pub face: u64,
    pub faces: u64,
}

// What one staff shows: its sight in dm and its face difference e in mm, or in that part.
#[derive(Clone, Copy)]
pub struct Sighting {
    pub sight: i64,
    pub face: i64,
}

// Both staffs, d in dm, and twice the station height in half mm, or in half of that part.
#[derive(Clone, Copy)]
pub struct Figures {
    pub back: Sighting,
    pub fore: Sighting,
    pub difference: i64,
    pub height: i64,
}

// code where t holds, rest otherwise: for callers that have refusals by the documents' numbers.
pub fn pick(t: bool, code: u8, rest: u8) -> u8
    ensures { result ≡ cond t code rest }
{
    if t { code } else { rest }
}

// The parts of a millimetre in which the constants are given: 1 or 10.
pub fn scale_of(staffs: Staffs) -> u64
    ensures { result ≡ scale_of staffs }
{
    match staffs {
        Staffs::Nominal => 1,
        Staffs::Measured(_, _) => 10,
    }
}

// The constant of the staff with the nominal one k.
fn constant_of(staffs: Staffs, k: i64) -> i64
    ensures value { result ≡ constant_of staffs k }
    ensures result_bound { nat_abs k ≤ 65535 → nat_abs result ≤ 65535 }
{
    match staffs {
        Staffs::Nominal => k,
        Staffs::Measured(first, second) => {
            if k == 4687 {
                i64::from(first)
            } else {
                i64::from(second)
            }
        }
    }
}

impl Staff {
    fn new(constant: i64, readings: [i64; 4]) -> Staff
        ensures { result ≡ staff_of constant readings }
    {
        let [upper, lower, black, red] = readings;
        Staff {
            constant,
            upper,
            lower,
            black,
            red,
        }
    }

    fn in_range(&self) -> bool
        ensures { result ≡ readings_in_range self.now }
    {
        (0..=3000).contains(&self.upper)
            && (0..=3000).contains(&self.lower)
            && (0..=3000).contains(&self.black)
            && (0..=7999).contains(&self.red)
    }

    fn in_order(&self) -> bool
        ensures { result ≡ threads_in_order self.now }
    {
        self.lower < self.black && self.black < self.upper
    }

    // The sight and face difference.
    fn sighting(&self, staffs: Staffs) -> Sighting
        requires { (nat_abs self.now.constant ≤ 4787) × (readings_in_range self.now ≡ true) }
        ensures value { result ≡ sighting_of staffs self.now }
        ensures small_sighting { SmallSighting result }
    {
        let scale = scale_of(staffs) as i64;
        Sighting {
            sight: self.upper - self.lower,
            face: constant_of(staffs, self.constant) + scale * (self.black - self.red),
        }
    }
}

impl Station {
    fn new(kb: i64, kf: i64, readings: [[i64; 4]; 2]) -> Station
        ensures { result ≡ station_of kb kf readings }
    {
        let [back, fore] = readings;
        Station {
            back: Staff::new(kb, back),
            fore: Staff::new(kf, fore),
        }
    }

    fn is_paired(&self) -> bool
        ensures { result ≡ constants_paired self.now }
    {
        (self.back.constant == 4687 && self.fore.constant == 4787)
            || (self.back.constant == 4787 && self.fore.constant == 4687)
    }

    // The refusal that the readings and constants alone cause: 6, 7 or 8.
    fn check_readings(&self) -> Result<(), Refusal>
        ensures { number_of result ≡ first_of (reading_tests self.now) }
    {
        if !(self.back.in_range() && self.fore.in_range()) {
            return Err(Refusal::Reading);
        }
        if !self.is_paired() {
            return Err(Refusal::Constants);
        }
        if !(self.back.in_order() && self.fore.in_order()) {
            return Err(Refusal::ThreadOrder);
        }
        Ok(())
    }

    // Twice the height, from the middle readings.
    fn twice_height(&self, staffs: Staffs) -> i64
        requires { first_of (reading_tests self.now) ≡ 0 }
        ensures value { result ≡ twice_height staffs self.now }
        ensures result_bound { nat_abs result ≤ 351050 }
    {
        let scale = scale_of(staffs) as i64;
        let constants = constant_of(staffs, self.back.constant)
            - constant_of(staffs, self.fore.constant);
        scale * ((self.back.black - self.fore.black) + (self.back.red - self.fore.red)) - constants
    }

    fn figures(&self, staffs: Staffs) -> Figures
        requires { first_of (reading_tests self.now) ≡ 0 }
        ensures value { result ≡ figures_of staffs self.now }
        ensures small { Small result }
    {
        let back = self.back.sighting(staffs);
        let fore = self.fore.sighting(staffs);
        let difference = back.sight - fore.sight;
        let height = self.twice_height(staffs);
        Figures {
            back,
            fore,
            difference,
            height,
        }
    }
}

// A station's figures, or the refusal that its readings and constants alone cause: 6, 7 or 8.
pub fn read(staffs: Staffs, kb: i64, kf: i64, readings: [[i64; 4]; 2]) -> Result<Figures, Refusal>
    ensures reads { Reads staffs kb kf readings result }
    ensures small { IfOk result (λ f. Small f) }
{
    let station = Station::new(kb, kf, readings);
    station.check_readings()?;
    Ok(station.figures(staffs))
}

fn sight_limit(order: Order, instrument: Instrument) -> u64
    ensures { result ≡ sight_limit order instrument }
{
    match (order, instrument) {
        (Order::Third, Instrument::Ds3) => 750,
        (Order::Third, Instrument::Ds1) => 1000,
        (Order::Fourth, Instrument::Ds3) => 1000,
        (Order::Fourth, Instrument::Ds1) => 1500,
    }
}

fn limits_of(order: Order, instrument: Instrument, staffs: Staffs) -> Limits
    ensures { result ≡ limits_of order instrument staffs }
{
    let sight = sight_limit(order, instrument);
    let scale = scale_of(staffs);
    match order {
        Order::Third => Limits {
            sight,
            difference: 20,
            accumulated: 50,
            face: 2 * scale,
            faces: 3 * scale,
        },
        Order::Fourth => Limits {
            sight,
            difference: 30,
            accumulated: 100,
            face: 3 * scale,
            faces: 5 * scale,
        },
    }
}

fn is_within(x: i64, limit: u64) -> bool
    ensures { result ≡ within x limit }
{
    x.unsigned_abs() <= limit
}

// Whether both numbers are within the limit.
fn both_within(x: i64, y: i64, limit: u64) -> bool
    ensures { result ≡ within x limit && within y limit }
{
    is_within(x, limit) && is_within(y, limit)
}

// Whether x + y is within the limit, also where the sum has more than 64 bits.
fn sum_within(x: i64, y: i64, limit: u64) -> bool
    ensures { result ≡ within (x +ℤ y) limit }
{
    (i128::from(x) + i128::from(y)).unsigned_abs() <= u128::from(limit)
}

// And x - y. Two functions and no one with the other's sign changed: `abs_diff` has room for every difference, and the sum needs 128 bits.
fn difference_within(x: i64, y: i64, limit: u64) -> bool
    ensures { result ≡ within (x -ℤ y) limit }
{
    x.abs_diff(y) <= limit
}

// The refusal that the limits of an order and an instrument cause to any figures: 24 to 28. accumulated is the sum of d before this station.
pub fn judge(
    order: Order,
    instrument: Instrument,
    staffs: Staffs,
    accumulated: i64,
    f: &Figures,
) -> Result<(), Refusal>
    ensures { number_of result ≡ first_of (limit_tests (limits_of order instrument staffs) accumulated f.now) }
{
    let l = limits_of(order, instrument, staffs);
    if !both_within(f.back.sight, f.fore.sight, l.sight) {
        return Err(Refusal::Sight);
    }
    if !is_within(f.difference, l.difference) {
        return Err(Refusal::SightDifference);
    }
    if !sum_within(accumulated, f.difference, l.accumulated) {
        return Err(Refusal::AccumulatedDifference);
    }
    if !both_within(f.back.face, f.fore.face, l.face) {
        return Err(Refusal::FaceDifference);
    }
    if !difference_within(f.back.face, f.fore.face, l.faces) {
        return Err(Refusal::HeightByFaces);
    }
    Ok(())
}
