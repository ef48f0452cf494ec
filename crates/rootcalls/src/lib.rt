// The functions of roots that C and Rust call: thin names for them.
#![tactic(auto)]

ghost use Rattle.std.specs.Prelude.{◌≡◌};
ghost use Rattle.roots.specs.Round.{divisor, round_even};
ghost use Rattle.roots.specs.Limit.{is_within};

// The nearest whole number to n / d, a tie going to the even one. A d outside 1 to 4 * 10^18 stands for the nearest divisor inside.
#[unsafe(no_mangle)]
pub extern "C" fn level_round_half_even(n: i64, d: i64) -> i64
    ensures { result ≡ round_even n (divisor d) }
{
    roots::rounding::round_half_even(n, d)
}

// Whether a * x * x is at most b * l.
#[unsafe(no_mangle)]
pub extern "C" fn level_root_within(a: u16, x: i64, b: u16, l: i64) -> bool
    ensures { result ≡ is_within a x b l }
{
    roots::limits::within(a, x, b, l)
}
