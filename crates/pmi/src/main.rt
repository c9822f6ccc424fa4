// Answers the line on standard input by text on standard output, and says on standard error what could not be read or
// written.
#![tactic(auto)]

ghost use Rattle.std.specs.Prelude.{◌≤◌, length, IfOk};

use std::io::{Read, Write};
use std::{fmt, io};

// What did not go well, in this program's own words; readlog has its own.
#[derive(Clone, Copy)]
enum Failure {
    // A read failed.
    NotRead,
    // A write failed.
    NotWritten,
}

impl fmt::Display for Failure {
    fn fmt<W: fmt::Write>(&self, f: &mut fmt::Formatter<W>) -> fmt::Result {
        match self {
            Failure::NotRead => write!(f, "the input could not be read"),
            Failure::NotWritten => write!(f, "the answer could not be written"),
        }
    }
}

fn main(rt: HostRuntime) {
    // one byte more than the longest line, so that a longer one is seen to be longer
    let mut line = [0; line::LONGEST_LINE + 1];
    let n = read_input(&mut rt.stdin(), &mut line).unwrap_or_else(|_| {
        // what was to come is not known
        say(&rt, Failure::NotRead);
        0
    });
    let mut text = [0; printer::LONGEST_TEXT];
    let n = printer::print(&line[..n], &mut text).map_or(0, |p| p.length);
    if rt.write_all(&text[..n]).is_err() {
        say(&rt, Failure::NotWritten);
    }
}

fn say(rt: &impl Eprint, failure: Failure) {
    let _ = eprintln!(rt; "pmi: {failure}");
}

// Reads until the line is full or the input ends, and gives how many bytes were read. (std's `read_to_end` takes a Vec, which
// allocates.)
fn read_input<R: Read>(input: &mut R, line: &mut [u8]) -> io::Result<usize>
    ensures { IfOk result (λ n. n ≤ length line.new) }
{
    let mut n = 0;
    while n < line.len() {
        let more = input.read(&mut line[n..])?;
        if more == 0 {
            break;
        }
        n += more;
    }
    Ok(n)
}
