// The collimation test, by the method I1-A-B-I2 (document 02, W-204). x is A1, B1, A2, B2, each the sum of four readings, then D1 and D2; all in mm.
#![tactic(auto)]

ghost use Rattle.std.specs.Prelude.{◌≡◌, true};
ghost use Rattle.numbers.specs.Tables.{first_of};
ghost use Rattle.records.specs.Refusals.{number_of};
ghost use Rattle.collimation.specs.Collimation.{collimation_of, sums_in_range, distances_in_range, in_range, scaled_angle, within_angle, range_tests, angle_tests};

use records::Refusal;

// The sums of four readings on the staffs A and B, from I1 and from I2, and the distances of I2 to B and to A.
#[derive(Clone, Copy)]
pub struct Collimation {
    pub a1: i64,
    pub b1: i64,
    pub a2: i64,
    pub b2: i64,
    pub d1: i64,
    pub d2: i64,
}

impl From<[i64; 6]> for Collimation {
    ghost from_gives = { λ x r. r ≡ collimation_of x };

    fn from(x: [i64; 6]) -> Collimation {
        let [a1, b1, a2, b2, d1, d2] = x;
        Collimation {
            a1,
            b1,
            a2,
            b2,
            d1,
            d2,
        }
    }
}

impl Collimation {
    fn has_sums_in_range(&self) -> bool
        ensures { result ≡ sums_in_range self.now }
    {
        (0..=12000).contains(&self.a1)
            && (0..=12000).contains(&self.b1)
            && (0..=12000).contains(&self.a2)
            && (0..=12000).contains(&self.b2)
    }

    fn has_distances_in_range(&self) -> bool
        ensures { result ≡ distances_in_range self.now }
    {
        (5000..=7000).contains(&self.d1) && (40000..=50000).contains(&self.d2)
    }

    fn in_range(&self) -> bool
        ensures { result ≡ in_range self.now }
    {
        self.has_sums_in_range() && self.has_distances_in_range()
    }

    fn scaled_angle(&self) -> i64
        requires { in_range self.now ≡ true }
        ensures { result ≡ scaled_angle self.now }
    {
        let u = (self.a2 - self.b2) - (self.a1 - self.b1);
        2062650000000 * u - 1288 * (self.d2 * self.d2 - self.d1 * self.d1)
    }

    fn within_angle(&self) -> bool
        requires { in_range self.now ≡ true }
        ensures { result ≡ within_angle self.now }
    {
        let limit = 1600000000 * (self.d2 - self.d1);
        self.scaled_angle().unsigned_abs() <= limit as u64
    }
}

// The refusal that a value outside its range causes: 44.
pub fn check_range(x: [i64; 6]) -> Result<(), Refusal>
    ensures { number_of result ≡ first_of (range_tests (collimation_of x)) }
{
    if Collimation::from(x).in_range() {
        Ok(())
    } else {
        Err(Refusal::CollimationRange)
    }
}

// The refusal of values outside their ranges, or of an i angle above its limit: 44 or 45.
#[tactic(auto, using(crate::proofs::Told::range_refused))]
pub fn check_angle(x: [i64; 6]) -> Result<(), Refusal>
    ensures { number_of result ≡ first_of (angle_tests (collimation_of x)) }
{
    check_range(x)?;
    if !Collimation::from(x).within_angle() {
        return Err(Refusal::Collimation);
    }
    Ok(())
}
