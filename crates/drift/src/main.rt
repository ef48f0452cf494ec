// drift: a text book on standard input, the first sections of its windows with drift on standard output. Its argument is how many sections a window has.
#![tactic(auto)]

use input::{input_buffer, read_input};
use std::env::Env;
use std::io;
use std::io::{Read, Write};
use warnings::printing::{print_drift, window_named};

// The window that the first argument names, 0 where there is none. No window has more than two digits.
fn window_of(environment: &HostRuntime) -> i64 {
    let mut argument = [0; 8];
    match environment.arg(1, &mut argument) {
        Ok(length) => window_named(&argument[..length]),
        Err(_) => 0,
    }
}

// An error where the output takes nothing more.
fn run<R: Read, W: Write>(source: &mut R, sink: &mut W, window: i64) -> io::Result<()> {
    let mut buffer = input_buffer();
    let read = read_input(source, &mut buffer).ok();
    let mut out = [0; 5292];
    let n = print_drift(&buffer, read, window, &mut out);
    sink.write_all(&out[..n])
}

// Warnings that nobody takes are no failure of the program.
fn main(rt: HostRuntime) {
    let window = window_of(&rt);
    let _ = run(&mut rt.stdin(), &mut rt.stdout(), window);
}
