// Lines of the text book, read.
ghost use Rattle.std.specs.Prelude.{◌≡◌, ◌+◌, ◌*◌, ◌≤◌, length, drop, pos, Ok};
ghost use Rattle.numbers.specs.Numbers.{put_at};
ghost use Rattle.columns.specs.Decimals.{pad, same, field_of};
ghost use Rattle.columns.specs.code.Parser.{digit_run, natural_of, negated};
ghost use Rattle.columns.specs.Lines.{line_end, heading};
ghost use Rattle.columns.specs.Records.{tags, tag_among, field_count, has_print_unit, lacks_print_unit, numbers_line, record_in, Parses};

use super::BLANK_LINE;
use records::{Record, Refusal, Tag};

const HEADING: &[u8] =
    b"LEVEL BOOK                                                                         \n";

// The number of a run of digits. Eighteen digits fit an i64.
#[tactic(auto, using(crate::proofs::Sets::digit_run))]
fn digit_run(bs: &[u8]) -> Option<i64>
    requires { length bs.now ≤ 18 }
    ensures { result ≡ digit_run bs.now }
{
    let mut n: u64 = 0;
    for b in bs {
        match *b {
            b'0'..=b'9' => n = 10 * n + (*b - b'0') as u64,
            _ => return None,
        }
    }
    Some(n as i64)
}

// A number with neither blanks nor a minus.
#[tactic(auto, using(crate::proofs::Sets::natural))]
fn natural(bs: &[u8]) -> Option<i64>
    requires { length bs.now ≤ 18 }
    ensures { result ≡ natural_of bs.now }
{
    match bs {
        [] | [b'0', _, ..] => None,
        _ => digit_run(bs),
    }
}

// The number with a minus before it: there is no −0.
#[tactic(auto, using(crate::proofs::Sets::negate), unfolding(crate::specs::code::Parser::negated))]
fn negate(n: Option<i64>) -> Option<i64>
    ensures { result ≡ negated n }
{
    match n {
        Some(v) if 0 < v => Some(-v),
        _ => None,
    }
}

// The number that stands in a field.
#[tactic(auto, using(crate::proofs::Sets::read_field))]
fn read_field(field: &[u8; 8]) -> Option<i64>
    ensures { result ≡ field_of field.now }
{
    let mut bs = field.as_slice();
    while let [b' ', rest @ ..] = bs {
        bs = rest;
    }
    match bs {
        [b'-', rest @ ..] => negate(natural(rest)),
        _ => natural(bs),
    }
}

// The numbers of the first n fields of a line, under the tag.
#[tactic(auto, using(crate::proofs::Sets::read_numbers))]
fn read_numbers(line: &[u8], tag: Tag, n: usize) -> Result<Record, Refusal>
    requires { (n ≤ 10) × (3 + 8 * n ≤ length line.now) }
    ensures { result ≡ numbers_line tag n (drop 3 line.now) }
{
    let mut values = [0i64; 10];
    let (fields, _) = line[3..].as_chunks();
    // By index: of places that `iter_mut` lends to a chain the proof would know nothing.
    for (i, field) in fields[..n].iter().enumerate() {
        values[i] = read_field(field).ok_or(Refusal::BadField)?;
    }
    Ok(Record { tag, values })
}

// How many numbers follow a tag.
fn field_count(tag: Tag) -> usize
    ensures { result ≡ field_count tag }
{
    match tag {
        Tag::Lin => 5,
        Tag::Sta => 10,
        Tag::Run => 1,
        Tag::Drr => 0,
        Tag::Drs => 0,
        Tag::End => 2,
        Tag::Spr => 5,
        Tag::Fin => 1,
        Tag::Ang => 6,
        Tag::Kon => 2,
        Tag::Lft => 0,
    }
}

// The tag with these letters. Stations are by far the commonest, so they are tried first.
#[tactic(auto, using(crate::proofs::Sets::find_tag))]
fn find_tag(letters: &[u8]) -> Option<Tag>
    ensures { result ≡ tag_among tags letters.now }
{
    match letters {
        b"STA" => Some(Tag::Sta),
        b"LIN" => Some(Tag::Lin),
        b"RUN" => Some(Tag::Run),
        b"DRR" => Some(Tag::Drr),
        b"DRS" => Some(Tag::Drs),
        b"END" => Some(Tag::End),
        b"SPR" => Some(Tag::Spr),
        b"FIN" => Some(Tag::Fin),
        b"ANG" => Some(Tag::Ang),
        b"KON" => Some(Tag::Kon),
        b"LFT" => Some(Tag::Lft),
        _ => None,
    }
}

// Whether a line ends in blanks up to column 83 and a line feed from index `from` on.
#[tactic(auto, using(crate::proofs::Sets::ends_from), unfolding(crate::specs::Decimals::same, crate::specs::Lines::line_end, crate::specs::Decimals::blanks))]
fn ends_from(line: &[u8], from: usize) -> bool
    requires { (from ≤ 83) × (length line.now ≡ 84) }
    ensures { result ≡ same (drop from line.now) (line_end from) }
{
    let blank = BLANK_LINE.as_slice();
    line[from..] == blank[from..]
}

// Whether the fifth field is the print unit, which may be blank.
fn has_print_unit(tag: Tag) -> bool
    ensures { result ≡ has_print_unit tag }
{
    matches!(tag, Tag::Lin | Tag::Spr)
}

// Whether it is blank.
#[tactic(auto, unfolding(crate::specs::Records::lacks_print_unit, crate::specs::Decimals::same, crate::specs::Decimals::blanks))]
fn lacks_print_unit(line: &[u8], tag: Tag) -> bool
    requires { length line.now ≡ 84 }
    ensures { result ≡ lacks_print_unit tag line.now }
{
    let blank = BLANK_LINE.as_slice();
    has_print_unit(tag) && line[35..43] == blank[35..43]
}

// The line with the usual one in its place.
fn with_usual(line: &[u8]) -> [u8; 84]
    requires { length line.now ≡ 84 }
    ensures { result ≡ put_at line.now 35 (pad 8 (pos 10)) }
{
    let mut filled = *BLANK_LINE;
    filled.copy_from_slice(line);
    filled[35..43].copy_from_slice(b"      10");
    filled
}

// A line of 84 bytes with a known tag.
#[tactic(auto, unfolding(crate::specs::Records::record_in, crate::specs::Records::with_print_unit))]
fn read_record(line: &[u8], tag: Tag) -> Result<Record, Refusal>
    requires { length line.now ≡ 84 }
    ensures { result ≡ record_in tag line.now }
{
    let n = field_count(tag);
    if !ends_from(line, 3 + 8 * n) {
        return Err(Refusal::NotARecord);
    }
    // One call of `read_numbers`, which is then built in: by two, a text of stations takes 4 % more instructions.
    let mut filled = [0u8; 84];
    let whole = if lacks_print_unit(line, tag) {
        filled = with_usual(line);
        filled.as_slice()
    } else {
        line
    };
    read_numbers(whole, tag, n)
}

// A line of the text book: its record, or its refusal.
pub fn parse_line(line: &[u8]) -> Result<Record, Refusal>
    ensures { Parses line.now result }
{
    if line.len() != 84 {
        return Err(Refusal::NotARecord);
    }
    let tag = find_tag(&line[..3]).ok_or(Refusal::NotARecord)?;
    read_record(line, tag)
}

// Whether a line is the heading of the text book.
#[tactic(auto, unfolding(crate::specs::Decimals::same, crate::specs::Lines::heading, crate::specs::Lines::line_with, crate::specs::Lines::line_end, crate::specs::Decimals::blanks))]
pub fn is_heading(line: &[u8]) -> bool
    ensures { result ≡ same line.now heading }
{
    line == HEADING
}
