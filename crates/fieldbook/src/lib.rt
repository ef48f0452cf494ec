// The text book and its report: from the bytes of a text to the bytes of a report.
#![tactic(auto)]

ghost use Rattle.std.specs.Prelude.{◌≡◌, length};
ghost use Rattle.fieldbook.specs.Report.{text_refusal, buffer_after, length_after, Reduces, printed_of};
ghost use Rattle.numbers.specs.Numbers.{put_at};

use records::Refusal;
use textbook::reader::read_into;
use textbook::text::fresh;

mod printing;

// The report of a text into a lent buffer: its length. Bytes beyond it keep their values.
pub fn reduce_text(text: &[u8], report: &mut [u8]) -> Result<usize, Refusal>
    ensures reduces { Reduces text.now report.old result }
    ensures report_after { report.new ≡ buffer_after text.now report.old }
{
    let mut state = fresh();
    read_into(text, &mut state)?;
    if report.len() < 65536 {
        return Err(Refusal::ReportRoom);
    }
    Ok(printing::put_state(report, &state))
}

// What the program prints of what it read, into a buffer of its own: the length of the part to print. `read` bytes of `input` are what it read; none where a read failed.
// The buffer stands beside how much of it was read, and is not the part itself: memory is fixed, and the contract is of any count.
pub fn print_input(input: &[u8; 65269], read: Option<usize>, out: &mut [u8; 65536]) -> usize
    ensures value { result ≡ length (printed_of input.now read) }
    ensures out_after { out.new ≡ put_at out.old 0 (printed_of input.now read) }
{
    let Some(count) = read else {
        return 0;
    };
    if 65268 < count {
        return printing::put_refusal(out, 0, Refusal::TextTooLong.number());
    }
    match reduce_text(&input[..count], out) {
        Ok(length) => length,
        Err(refusal) => printing::put_refusal(out, 0, refusal.number()),
    }
}

// `reduce_text` in the form in which it is exported: document 01's number. The report's length goes into `written`.
pub fn level_reduce(text: &[u8], report: &mut [u8], written: &mut usize) -> u8
    ensures value { result ≡ text_refusal text.now report.old }
    ensures report_after { report.new ≡ buffer_after text.now report.old }
    ensures written_after { written.new ≡ length_after text.now report.old written.old }
{
    match reduce_text(text, report) {
        Ok(length) => {
            *written = length;
            0
        }
        Err(refusal) => refusal.number(),
    }
}
