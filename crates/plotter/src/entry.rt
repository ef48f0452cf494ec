// The profile of a text book: for callers, for C and for the program.
ghost use Rattle.std.specs.Prelude.{◌≡◌, ◌≤◌, length};
ghost use Rattle.numbers.specs.Numbers.{put_at};
ghost use Rattle.fieldbook.specs.Report.{ref_line};
ghost use Rattle.fieldbook.specs.code.Printed.{Puts};
ghost use Rattle.plotter.specs.Text.{text_refusal, text_buffer, length_after, TextProfiles, printed_of};

use super::profile::put_profile;
use columns::writer::put_line;
use records::Refusal;
use textbook::reader::read_text;

// The profile of a text into a lent buffer: how many bytes. Bytes beyond them keep their values.
pub fn profile_text(text: &[u8], buf: &mut [u8]) -> Result<usize, Refusal>
    ensures profiles { TextProfiles text.now (length buf.old) result }
    ensures buf_after { buf.new ≡ text_buffer text.now buf.old }
{
    let state = read_text(text)?;
    put_profile(&state.book, buf)
}

// `profile_text` in the form in which it is exported: the number of its answer. How many bytes the profile has goes into `written`.
pub fn level_profile(text: &[u8], buf: &mut [u8], written: &mut usize) -> u8
    ensures value { result ≡ text_refusal text.now (length buf.old) }
    ensures buf_after { buf.new ≡ text_buffer text.now buf.old }
    ensures written_after { written.new ≡ length_after text.now (length buf.old) written.old }
{
    match profile_text(text, buf) {
        Ok(length) => {
            *written = length;
            0
        }
        Err(refusal) => refusal.number(),
    }
}

// The line of a refusal of the whole text: how many bytes.
#[tactic(auto, using(fieldbook::proofs::Written::refusal_fits, fieldbook::proofs::Written::put_whole))]
fn put_refusal(out: &mut [u8], number: u8) -> usize
    requires { 84 ≤ length out.old }
    ensures { Puts (ref_line (record { line = 0; number = number })) out.old out.new result }
{
    put_line(out, 0, b"REF", &[0, number as i64], false);
    84
}

// What the program prints of what it read, into a buffer of its own: the length of the part to print. `read` bytes of `input` are what it read; none where a read failed.
pub fn print_profile(input: &[u8; 65269], read: Option<usize>, out: &mut [u8; 1040]) -> usize
    ensures value { result ≡ length (printed_of input.now read) }
    ensures out_after { out.new ≡ put_at out.old 0 (printed_of input.now read) }
{
    let Some(count) = read else {
        return 0;
    };
    let text = &input[..count.min(65269)];
    match profile_text(text, out) {
        Ok(length) => length,
        Err(refusal) => put_refusal(out, refusal.number()),
    }
}
