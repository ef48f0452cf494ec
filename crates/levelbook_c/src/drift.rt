// Warnings of drift.
ghost use Rattle.std.specs.Prelude.{◌≡◌};
ghost use Rattle.warnings.specs.Text.{text_refusal, list_after, count_after};

// The first sections of the windows of so many sections in which the line of a text book drifts, into a lent list; the answer is document 01's number. How many there are goes into `count`.
#[unsafe(no_mangle)]
pub extern "C" fn level_drift(
    text: &[u8],
    window: i64,
    firsts: &mut [usize],
    count: &mut usize,
) -> u8
    ensures value { result ≡ text_refusal text.now window }
    ensures firsts_after { firsts.new ≡ list_after text.now window firsts.old }
    ensures count_after { count.new ≡ count_after text.now window count.old }
{
    warnings::entry::level_drift(text, window, firsts, count)
}
