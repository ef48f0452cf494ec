// The report of a text book for C: a thin name for it. In C each list is a pointer and a length.
#![tactic(auto)]

ghost use Rattle.std.specs.Prelude.{◌≡◌};
ghost use Rattle.fieldbook.specs.Report.{text_refusal, length_after, buffer_after};

// The report of a text book; the answer is document 01's number. The report's length goes into `written`.
#[unsafe(no_mangle)]
pub extern "C" fn level_reduce(text: &[u8], report: &mut [u8], written: &mut usize) -> u8
    ensures value { result ≡ text_refusal text.now report.old }
    ensures report_after { report.new ≡ buffer_after text.now report.old }
    ensures written_after { written.new ≡ length_after text.now report.old written.old }
{
    fieldbook::level_reduce(text, report, written)
}
