// Lines written into a lent buffer.
ghost use Rattle.std.specs.Prelude.{◌≡◌, true, ◌&&◌, ◌++◌, ◌+◌, ◌-◌, ◌<◌, ◌≤◌, leb, length};
ghost use Rattle.numbers.specs.Numbers.{put_at};
ghost use Rattle.columns.specs.Buffers.{placed};
ghost use Rattle.columns.specs.Decimals.{blanks, digits, decimal, fits_in, pad};
ghost use Rattle.columns.specs.Lines.{width_of, fields, all_fit, columns_of, line_fits, line_with, tag_line, is_wide, title};

use super::BLANK_LINE;
use itoa::write_digits;

// How many digits x has.
#[tactic(auto, using(crate::proofs::Sets::count_digits))]
fn count_digits(x: u64) -> usize
    ensures { result ≡ length (digits x) }
{
    x.checked_ilog10().map_or(1, |k| k as usize + 1)
}

// Whether x fits k columns. Eight, as nearly all fields have, are told by the range: to count the digits of each number that is printed was tried and is slower.
#[tactic(auto, using(crate::proofs::Sets::fits), unfolding(crate::specs::Decimals::fits_in))]
pub fn fits(x: i64, k: usize) -> bool
    ensures { result ≡ fits_in k x }
{
    if k == 8 {
        return (-9999999..=99999999).contains(&x);
    }
    let n = count_digits(x.unsigned_abs());
    if x < 0 { n < k } else { n <= k }
}

// x right-justified in a field of blanks.
#[tactic(auto, using(crate::proofs::Sets::put_number))]
fn put_number(field: &mut [u8], x: i64)
    requires fit { fits_in (length field.old) x ≡ true }
    requires blank { field.old ≡ blanks (length field.old) }
    ensures { field.new ≡ pad (length field.old) x }
{
    let end = field.len();
    let first = write_digits(x.unsigned_abs(), field, end);
    if x < 0 {
        field[first - 1] = b'-';
    }
}

// The numbers of a line, each in a field of eight columns, the last in one of sixteen where it is wide. `wide` says how wide that field is, and chooses no steps to run.
#[derive(Clone, Copy)]
struct Row<'a> {
    numbers: &'a [i64],
    wide: bool,
}

impl Row<'_> {
    // The columns of field i.
    #[tactic(auto, using(crate::proofs::Sets::width_of), unfolding(crate::specs::Lines::width_of))]
    fn width(&self, i: usize) -> usize
        requires { i < length self.now.numbers.now }
        ensures { result ≡ width_of self.now.wide (length self.now.numbers.now - (i + 1)) }
    {
        if self.wide && i + 1 == self.numbers.len() {
            16
        } else {
            8
        }
    }

    // The columns of all fields.
    #[tactic(auto, using(crate::proofs::Sets::columns_of), unfolding(crate::specs::Lines::columns_of))]
    fn columns(&self) -> usize
        requires { length self.now.numbers.now ≤ 10 }
        ensures { result ≡ columns_of self.now.wide (length self.now.numbers.now) }
    {
        let narrow = 8 * self.numbers.len();
        if self.wide && !self.numbers.is_empty() {
            narrow + 8
        } else {
            narrow
        }
    }

    // Whether each number fits its field.
    fn fit(&self) -> bool
        ensures { result ≡ all_fit self.now.wide self.now.numbers.now }
    {
        self.numbers
            .iter()
            .enumerate()
            .all(|(i, x)| fits(*x, self.width(i)))
    }

    // Whether a line has room for the fields behind a tag of this length, and each number fits its field.
    #[tactic(auto, using(crate::proofs::Sets::line_fits))]
    fn fit_behind(&self, letters: usize) -> bool
        ensures { result ≡ line_fits letters self.now.numbers.now self.now.wide }
    {
        letters <= 83 && self.numbers.len() <= 10 && letters + self.columns() <= 83 && self.fit()
    }

    // The fields, one after the other, on blanks.
    #[tactic(auto, using(crate::proofs::Sets::put_fields), unfolding(crate::specs::Lines::fields))]
    fn put(&self, columns: &mut [u8])
        requires fit { all_fit self.now.wide self.now.numbers.now ≡ true }
        requires blank { columns.old ≡ blanks (columns_of self.now.wide (length self.now.numbers.now)) }
        ensures { columns.new ≡ fields self.now.wide self.now.numbers.now }
    {
        // A running index: the next field begins where the last one ended, and how wide that was is known only then.
        let mut next = 0;
        for (i, x) in self.numbers.iter().enumerate() {
            let end = next + self.width(i);
            put_number(&mut columns[next..end], *x);
            next = end;
        }
    }
}

// The line of a tag and a row that fit it.
#[tactic(auto, using(crate::proofs::Sets::write_line), unfolding(crate::specs::Lines::line_end, crate::specs::Decimals::blanks))]
fn write_line(line: &mut [u8], tag: &[u8], row: &Row)
    requires fit { line_fits (length tag.now) row.now.numbers.now row.now.wide ≡ true }
    requires room { length line.old ≡ 84 }
    ensures { line.new ≡ line_with (tag.now ++ fields row.now.wide row.now.numbers.now) }
{
    line.copy_from_slice(BLANK_LINE);
    let (front, rest) = line.split_at_mut(tag.len());
    front.copy_from_slice(tag);
    row.put(&mut rest[..row.columns()]);
}

// The line of a tag and numbers from index at on, the last field wide or not: whether it was written. Nothing is where they do not fit, or the
// buffer has no room. A plain yes or no, with nothing beside it: a caller must be able to know that a line was left out, and ours, whose lines fit, need not ask.
// The buffer and the index beside it are the form in which the callers of this library lend it.
#[tactic(auto, using(crate::proofs::Sets::put_line))]
pub fn put_line(buf: &mut [u8], at: usize, tag: &[u8], numbers: &[i64], wide: bool) -> bool
    ensures value { result ≡ line_fits (length tag.now) numbers.now wide && leb (at + 84) (length buf.old) }
    ensures buf_after { buf.new ≡ placed buf.old at (tag_line tag.now numbers.now wide) }
{
    let row = Row { numbers, wide };
    if !row.fit_behind(tag.len()) || buf.len() < 84 || buf.len() - 84 < at {
        return false;
    }
    write_line(&mut buf[at..at + 84], tag, &row);
    true
}

// The report's title from index at on, lent as above: whether the buffer had room for it, a plain yes or no as of `put_line` and for the same reason.
#[tactic(auto, unfolding(crate::specs::Lines::title, crate::specs::Lines::tag_line, crate::specs::Lines::line_fits, crate::specs::Lines::columns_of, crate::specs::Lines::all_fit, crate::specs::Lines::fields))]
pub fn put_title(buf: &mut [u8], at: usize) -> bool
    ensures value { result ≡ leb (at + 84) (length buf.old) }
    ensures buf_after { buf.new ≡ placed buf.old at title }
{
    put_line(buf, at, b"REDUCED LEVELS", &[], false)
}

// Whether a height takes a wide field.
#[tactic(auto, unfolding(crate::specs::Lines::is_wide))]
pub fn is_wide(height: i64) -> bool
    ensures { result ≡ is_wide height }
{
    height < -9999999
}
