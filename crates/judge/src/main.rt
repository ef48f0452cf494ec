// judge: the file of a run and the file of the same run shot again, the order, the instrument, and G and s of the opposite run; the judgement on standard output.
#![tactic(auto)]

ghost use Rattle.std.specs.Prelude.{◌≤◌, length, IfOk};

use input::{input_buffer, read_input};
use repeat::words::judgement_line;
use std::env::{Args, Env};
use std::io::{ErrorKind, Write};
use std::rt::Files;
use std::{env, fs, io};

// What the arguments ask for.
#[derive(Drop)]
struct Asked {
    first: String,
    second: String,
    order: i64,
    instrument: i64,
    g: i64,
    s: i64,
}

fn next_number(args: &mut Args) -> Option<i64> {
    args.next()?.parse().ok()
}

// None where an argument is missing, is no number or is left over.
fn asked_by(args: &mut Args) -> Option<Asked> {
    let asked = Asked {
        first: args.next()?,
        second: args.next()?,
        order: next_number(args)?,
        instrument: next_number(args)?,
        g: next_number(args)?,
        s: next_number(args)?,
    };
    match args.next() {
        None => Some(asked),
        Some(_) => None,
    }
}

// What is read of a file, into the buffer: how many bytes.
fn read_file<R: Files>(rt: &R, path: &str, buffer: &mut [u8]) -> io::Result<usize>
    ensures { IfOk result (λ n. n ≤ length buffer.new) }
{
    let mut file = fs::open(rt, path)?;
    read_input(&mut file, buffer)
}

fn run<R: Files + Env + Eprint + AllocGlobal, W: Write>(rt: &R, sink: &mut W) -> io::Result<()> {
    let mut args = env::args(rt)?;
    let _program = args.next();
    let Some(asked) = asked_by(&mut args) else {
        eprintln!(rt; "usage: judge OLD NEW ORDER INSTRUMENT G S")?;
        return Err(io::Error::from(ErrorKind::InvalidInput));
    };
    let mut old = input_buffer();
    let mut new = input_buffer();
    let old_read = read_file(rt, &asked.first, &mut old)?;
    let new_read = read_file(rt, &asked.second, &mut new)?;
    let line = judgement_line(
        &old[..old_read],
        &new[..new_read],
        asked.order,
        asked.instrument,
        asked.g,
        asked.s,
    );
    sink.write_all(line)
}

fn main(rt: HostRuntime) -> io::Result<()> {
    run(&rt, &mut rt.stdout())
}
