// profile: a text book on standard input, its profile on standard output.
#![tactic(auto)]

use input::{input_buffer, read_input};
use plotter::entry::print_profile;
use std::io;
use std::io::{Read, Write};

// An error where the output takes nothing more.
fn run<R: Read, W: Write>(source: &mut R, sink: &mut W) -> io::Result<()> {
    let mut buffer = input_buffer();
    let read = read_input(source, &mut buffer).ok();
    let mut out = [0; 1040];
    let n = print_profile(&buffer, read, &mut out);
    sink.write_all(&out[..n])
}

// A profile that nobody takes is no failure of the program.
fn main(rt: HostRuntime) {
    let _ = run(&mut rt.stdin(), &mut rt.stdout());
}
