// Root limits decided without a root: a * x * x <= b * l over whole numbers, for every a, x, b and l.
ghost use Rattle.std.specs.Prelude.{◌≡◌};
ghost use Rattle.roots.specs.Limit.{is_within};

// Whether a * x * x is at most b * l. A left side of more than 128 bits becomes the largest number of 128 bits, which is above every b * l too.
pub fn within(a: u16, x: i64, b: u16, l: i64) -> bool
    ensures { result ≡ is_within a x b l }
{
    if b > 0 && l < 0 {
        return false;
    }
    let m = x.unsigned_abs();
    // m * m alone is above every b * l then: 128 bits take near twice the time to say so.
    if 1099511627776 <= m {
        return a == 0;
    }
    let m = u128::from(m);
    let limit = u128::from(b) * u128::from(l.unsigned_abs());
    u128::from(a).saturating_mul(m * m) <= limit
}
