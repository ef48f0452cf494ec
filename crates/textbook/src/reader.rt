// A text book read by a reader that holds the lent text. What is read from a line on is in `text`.
ghost use Rattle.std.specs.Prelude.{◌≡◌, ◌≤◌, cond, length, IfOk};
ghost use Rattle.records.specs.Refusals.{number_of};
ghost use Rattle.columns.specs.Texts.{lines};
ghost use Rattle.textbook.specs.Text.{most_text, too_long};
ghost use Rattle.textbook.specs.code.State.{text_from, fresh_state, text_state};

use super::text::{State, fresh, read_from};
use records::Refusal;

// A text that is not too long, and the number of the line that is read next, counted from 1.
#[derive(Clone, Copy)]
struct Reader<'a> {
    text: &'a [u8],
    line: usize,
    ghost short: { length text.now ≤ most_text },
}

impl<'a> Reader<'a> {
    // Before the first line; 9 of a text that is too long.
    fn of(text: &'a [u8]) -> Result<Self, Refusal>
        ensures number { number_of result ≡ cond (too_long text.now) 9 0 }
        ensures text { IfOk result (λ r. r.text ≡ text.entry) }
        ensures line { IfOk result (λ r. r.line ≡ 1) }
    {
        if 65268 < text.len() {
            return Err(Refusal::TextTooLong);
        }
        Ok(Reader { text, line: 1 })
    }

    // What the text leaves from that line on, into a fresh state.
    fn read_rest(self, state: &mut State)
        requires { state.old ≡ fresh_state }
        ensures { state.new ≡ text_state (lines (text_from self.entry.text.now self.entry.line)) }
    {
        read_from(self.text, self.line, state)
    }
}

// Reads a text into a state, whatever it held: the plain reading of the text's lines. Of a text that is too long no line is read, and the state stays.
pub fn read_into(text: &[u8], state: &mut State) -> Result<(), Refusal>
    ensures number { number_of result ≡ cond (too_long text.now) 9 0 }
    ensures state { state.new ≡ cond (too_long text.now) state.old (text_state (lines text.now)) }
{
    let reader = Reader::of(text)?;
    *state = fresh();
    reader.read_rest(state);
    Ok(())
}

// The state that a text leaves. (`read_into` copies none, which on a short text is a quarter of the instructions.)
pub fn read_text(text: &[u8]) -> Result<State, Refusal>
    ensures number { number_of result ≡ cond (too_long text.now) 9 0 }
    ensures state { IfOk result (λ s. s ≡ text_state (lines text.now)) }
{
    let mut state = fresh();
    read_into(text, &mut state)?;
    Ok(state)
}
