// What the program prints.
ghost use Rattle.std.specs.Prelude.{◌≡◌};
ghost use Rattle.columns.specs.Ascii.{bytes_of};
ghost use Rattle.repeat.specs.Repeat.{words, refused, printed_of};

use super::{Judgement, judge};

fn words(judgement: Judgement) -> &'static [u8]
    ensures { result.now ≡ bytes_of (words judgement) }
{
    match judgement {
        Judgement::New => b"NEW RUN STANDS\n",
        Judgement::Mean => b"MEAN STANDS\n",
        Judgement::Opposite => b"OPPOSITE RUN DUE\n",
    }
}

// The refusal with this number.
fn refused(number: u8) -> &'static [u8]
    ensures { result.now ≡ bytes_of (refused number) }
{
    if number == 3 {
        b"REFUSED 3\n"
    } else {
        b"REFUSED 52\n"
    }
}

// The judgement of two texts in words, a line, or its refusal.
pub fn judgement_line(
    first: &[u8],
    second: &[u8],
    order: i64,
    instrument: i64,
    g: i64,
    s: i64,
) -> &'static [u8]
    ensures { result.now ≡ printed_of first.now second.now order instrument g s }
{
    match judge(first, second, order, instrument, g, s) {
        Ok(judgement) => words(judgement),
        Err(refusal) => refused(refusal.number()),
    }
}
