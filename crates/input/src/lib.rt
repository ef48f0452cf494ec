// Reading an input whole, for the programs.
#![tactic(auto)]

ghost use Rattle.std.specs.Prelude.{◌≡◌, ◌≤◌, ◌<◌, length, take, IfOk};
ghost use Rattle.std.specs.Io.KnownBytes.{Consumes, IsAtEnd};

use std::io;
use std::io::Read;

// Room for one byte more than the longest text: what fills it is too long, and the rest is not waited for.
pub fn input_buffer() -> [u8; 65269]
    ensures { 65269 ≡ length result }
{
    [0; 65269]
}

// Reads until the buffer is full or the input ends: how many bytes were read. Where a read failed they may be a part of the text only.
pub fn read_input<R: Read>(source: &mut R, buffer: &mut [u8]) -> io::Result<usize>
    ensures within { IfOk result (λ n. n ≤ length buffer.new) }
    ensures bytes { IfOk result (λ n. Consumes (R.remaining source.old) (R.remaining source.new) (take n buffer.new)) }
    ensures end { IfOk result (λ n. n < length buffer.new → IsAtEnd (R.remaining source.new)) }
{
    // no `for`: it counts bytes, and not reads
    let mut count = 0;
    while count < buffer.len() {
        let n = source.read(&mut buffer[count..])?;
        if n == 0 {
            return Ok(count);
        }
        count += n;
    }
    Ok(count)
}
