// What the program prints: the title and a line for each warning, or the refusal alone.
ghost use Rattle.std.specs.Prelude.{◌≡◌, ◌*◌, ◌≤◌, ◌∷◌, map, length, take};
ghost use Rattle.numbers.specs.Numbers.{put_at};
ghost use Rattle.columns.specs.Texts.{joined};
ghost use Rattle.fieldbook.specs.Report.{ref_line};
ghost use Rattle.fieldbook.specs.code.Printed.{Puts};
ghost use Rattle.warnings.specs.Text.{digit, digit_named, window_named, drift_title, drift_line, printed_of};
ghost use Rattle.warnings.specs.code.Listed.{numbers_small};

use super::entry::drift_in_text;
use columns::writer::put_line;

const TEN: &[u8] = b"10";

// The number of a digit, 0 for another byte.
fn digit(byte: u8) -> i64
    ensures { result ≡ digit byte }
{
    if byte.is_ascii_digit() {
        return i64::from(byte - b'0');
    }
    0
}

// The number that one digit alone names, 0 for anything else.
fn digit_named(argument: &[u8]) -> i64
    ensures { result ≡ digit_named argument.now }
{
    match argument {
        [byte] => digit(*byte),
        _ => 0,
    }
}

// The window that an argument names, one digit or 10; 0 for anything else.
#[tactic(auto, unfolding(columns::specs::Decimals::same))]
pub fn window_named(argument: &[u8]) -> i64
    ensures { result ≡ window_named argument.now }
{
    if argument == TEN {
        return 10;
    }
    digit_named(argument)
}

// The refusal alone: its length.
#[tactic(auto, using(crate::proofs::Lines::refusal_line))]
fn put_refusal(out: &mut [u8], number: u8) -> usize
    requires { 84 ≤ length out.old }
    ensures { Puts (ref_line (record { line = 0; number = number })) out.old out.new result }
{
    put_line(out, 0, b"REF", &[0, number as i64], false);
    84
}

// The line of a warning, at the beginning of the rest of the buffer: its length.
#[tactic(auto, using(crate::proofs::Lines::warning_line))]
fn put_first(out: &mut [u8], number: usize) -> usize
    requires { (84 ≤ length out.old) × (number ≤ 64) }
    ensures { Puts (drift_line number) out.old out.new result }
{
    put_line(out, 0, b"DRF", &[number as i64], false);
    84
}

// The lines of the warnings: their length.
fn put_firsts(out: &mut [u8], firsts: &[usize]) -> usize
    requires { (84 * length firsts.now ≤ length out.old) × numbers_small firsts.now }
    ensures { Puts (joined (map drift_line firsts.now)) out.old out.new result }
{
    let mut at = 0;
    for number in firsts {
        at += put_first(&mut out[at..], *number);
    }
    at
}

// The title and the lines of the warnings: their length.
fn put_warnings(out: &mut [u8], firsts: &[usize]) -> usize
    requires { (5292 ≤ length out.old) × ((length firsts.now ≤ 62) × numbers_small firsts.now) }
    ensures { Puts (joined (drift_title ∷ map drift_line firsts.now)) out.old out.new result }
{
    put_line(out, 0, b"WARNINGS OF DRIFT", &[], false);
    84 + put_firsts(&mut out[84..], firsts)
}

// The first bytes of what was read, all where there are no more.
#[tactic(auto, using(std::proofs::lemmas::List::take_min))]
fn front(input: &[u8], count: usize) -> &[u8]
    ensures { result.now ≡ take count input.now }
{
    &input[..count.min(input.len())]
}

// What the program prints of what it read, into a buffer of its own: the length of the part to print. `read` bytes of `input` are what it read; none where a read failed.
pub fn print_drift(
    input: &[u8; 65269],
    read: Option<usize>,
    window: i64,
    out: &mut [u8; 5292],
) -> usize
    ensures value { result ≡ length (printed_of input.now read window) }
    ensures out_after { out.new ≡ put_at out.old 0 (printed_of input.now read window) }
{
    let Some(count) = read else {
        return 0;
    };
    match drift_in_text(front(input, count), window) {
        Ok(drift) => put_warnings(out, drift.listed()),
        Err(refusal) => put_refusal(out, refusal.number()),
    }
}
