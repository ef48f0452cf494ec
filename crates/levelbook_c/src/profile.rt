// The profile of a text book, and the difference of two of its points, for C.
ghost use Rattle.std.specs.Prelude.{◌≡◌, length};
ghost use Rattle.plotter.specs.Floats.{difference};
ghost use Rattle.plotter.specs.Text.{text_refusal, text_buffer, length_after};

use plotter::Pair;

// The profile of a text book; the answer is the number of its refusal, or 0. How many bytes it has goes into `written`.
#[unsafe(no_mangle)]
pub extern "C" fn level_profile(text: &[u8], buf: &mut [u8], written: &mut usize) -> u8
    ensures value { result ≡ text_refusal text.now (length buf.old) }
    ensures buf_after { buf.new ≡ text_buffer text.now buf.old }
    ensures written_after { written.new ≡ length_after text.now (length buf.old) written.old }
{
    plotter::entry::level_profile(text, buf, written)
}

// From one point to another: of neighbours R and Q.
#[unsafe(no_mangle)]
pub extern "C" fn level_difference(from: Pair, to: Pair) -> Pair
    ensures { result ≡ difference from to }
{
    plotter::difference(from, to)
}
