// Rounding to even without branches: a comparison becomes 0 or 1, and that number does the choosing. By the same rule nothing here calls the library, whose
// `clamp`, `div_euclid` and `rem_euclid` stand on branches.
ghost use Rattle.std.specs.Prelude.{◌≡◌, cond, pos, nat_abs, ◌-ℤ◌, ◌*ℤ◌, ◌≤ℤ◌};
ghost use Rattle.roots.specs.Round.{divisor, floor_div, round_even};

// x where b holds, y otherwise.
pub fn select(b: bool, x: i64, y: i64) -> i64
    ensures { result ≡ cond b x y }
{
    let t = b as i64;
    x * t + y * (1 - t)
}

// The divisor that d stands by: d itself from 1 to 4 * 10^18.
fn divisor_of(d: i64) -> i64
    ensures { result ≡ pos (divisor d) }
{
    select(
        d < 1,
        1,
        select(4000000000000000000 < d, 4000000000000000000, d),
    )
}

// n / d, rounded down.
fn floor_of(n: i64, d: i64) -> i64
    requires { pos 1 ≤ℤ d }
    ensures { result ≡ floor_div n (nat_abs d) }
{
    n / d - (n % d < 0) as i64
}

// What n has above that multiple of d.
fn excess_of(n: i64, d: i64) -> i64
    requires { pos 1 ≤ℤ d }
    ensures { result ≡ n -ℤ d *ℤ floor_div n (nat_abs d) }
{
    let r = n % d;
    r + d * ((r < 0) as i64)
}

// The nearest whole number to n / d, a tie going to the even one; d is held to 1 to 4 * 10^18.
pub fn round_half_even(n: i64, d: i64) -> i64
    ensures { result ≡ round_even n (divisor d) }
{
    let e = divisor_of(d);
    let q = floor_of(n, e);
    let r = excess_of(n, e);
    let odd = q % 2;
    q + (e < 2 * r + odd * odd) as i64
}
