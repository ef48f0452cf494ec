// The runner for C: a thin name for it. In C each list is a pointer and a length.
#![tactic(auto)]

ghost use Rattle.std.specs.Prelude.{◌≡◌, length};
ghost use Rattle.numbers.specs.Numbers.{written};
ghost use Rattle.ledger.specs.Plain.{book_of};
ghost use Rattle.runner.specs.Calls.{entries_of, reading_after, numbers_of};
ghost use Rattle.runner.specs.Figures.{book_figures};

// The entries one after another, the first on a fresh book: each entry's number into its place of one lent list, the figures of the book that they
// leave into the other, as far as these have places. The answer is how many entries there are, whether or not their numbers had places.
#[unsafe(no_mangle)]
pub extern "C" fn level_run(calls: &[i64], numbers: &mut [u8], figures: &mut [i64]) -> usize
    ensures count { result ≡ length (entries_of calls.now) }
    ensures numbers { numbers.new ≡ written (numbers_of calls.now) numbers.old }
    ensures figures { figures.new ≡ written (book_figures (book_of (reading_after calls.now))) figures.old }
{
    runner::level_run(calls, numbers, figures)
}
