// Prints the reports of the log on standard input, a line each, and then its end or its first fault; says on standard error
// what could not be read or written.
#![tactic(auto)]

ghost use Rattle.std.specs.Prelude.{◌+◌, ◌^◌, ◌<◌, ◌≤◌, length, IfOk, IfSome};

use logs::Answer;
use std::io::{Read, Write};
use std::{fmt, io};

// No report is longer. Where so many bytes are left, they tell what stands at a place, whatever follows them
// (crates/logs/proofs/Parts.antt).
const LONGEST_REPORT: usize = 40;

// How many bytes of the log are held at once, and of its lines. std's readers and writers that hold some allocate.
const BUFFER: usize = 65536;

// How many bytes are counted. A place has 64 bits, and a loop that is proved has to end.
const MOST_BYTES: u64 = 1 << 63;

// How many bytes a line has, and the place behind its report.
#[derive(Clone, Copy)]
struct Line {
    length: usize,
    next: usize,
}

// Why the log is not printed to its end.
#[derive(Clone, Copy)]
enum Failure {
    // A read failed.
    NotRead,
    // A write of reports failed.
    NotWritten,
    // The write of the last line failed.
    LastNotWritten,
    // It has more bytes than are counted.
    TooLong,
}

impl fmt::Display for Failure {
    fn fmt<W: fmt::Write>(&self, f: &mut fmt::Formatter<W>) -> fmt::Result {
        match self {
            Failure::NotRead => write!(f, "the log could not be read"),
            Failure::NotWritten => write!(f, "the reports could not be written"),
            Failure::LastNotWritten => write!(f, "the last line could not be written"),
            Failure::TooLong => write!(f, "the log is longer than {MOST_BYTES} bytes"),
        }
    }
}

fn main(rt: HostRuntime) {
    let mut part = [0; BUFFER];
    let mut lines = [0; BUFFER];
    if let Err(failure) = print_log(&mut rt.stdin(), &mut rt.stdout(), &mut part, &mut lines) {
        let _ = eprintln!(rt; "readlog: {failure}");
    }
}

// Prints the log, a part after the other. Of a part the reports are printed as long as so many bytes are left as one may
// have; what is left is moved to the front, and more is read behind it.
fn print_log<R: Read, W: Write>(
    input: &mut R,
    output: &mut W,
    part: &mut [u8],
    lines: &mut [u8],
) -> Result<(), Failure>
    requires { length part.old ≤ 65536 }
{
    let mut held = 0;
    // how many bytes of the log stand before those that are held
    let mut before: u64 = 0;
    while before < MOST_BYTES {
        let more = input.read(&mut part[held..]).map_err(|_| Failure::NotRead)?;
        // where nothing more comes, any byte that is left begins a report
        let least = if more == 0 { 1 } else { LONGEST_REPORT };
        held += more;
        let next = print_reports(output, &part[..held], least, lines).map_err(
            |_| Failure::NotWritten,
        )?;
        if more == 0 || least <= held - next {
            return print_last(output, &part[..held], next, before).map_err(
                |_| Failure::LastNotWritten,
            );
        }
        ground::to_front(part, next, held);
        held -= next;
        before += next as u64;
    }
    Err(Failure::TooLong)
}

// Writes the line of the report at a place of a part, where one stands.
fn put_line(part: &[u8], at: usize, out: &mut [u8]) -> Option<Line>
    ensures { IfSome result (λ line. (line.length ≤ length out.new) × (at < line.next) × (line.next ≤ length part.now)) }
{
    let t = logs::taken_at(part, at);
    let Answer::Read(report) = t.answer else {
        return None;
    };
    Some(Line {
        length: listing::numbers(eight::values_of(report), out).unwrap_or(0),
        next: t.next,
    })
}

// Prints the reports at the front of a part of the log, up to the first place where fewer bytes are left than `least` or
// where no report stands, and gives that place.
fn print_reports<W: Write>(
    output: &mut W,
    part: &[u8],
    least: usize,
    lines: &mut [u8],
) -> io::Result<usize>
    ensures { IfOk result (λ next. next ≤ length part.now) }
{
    let mut n = 0;
    let mut at = 0;
    while least <= part.len() - at {
        let Some(line) = put_line(part, at, &mut lines[n..]) else {
            break;
        };
        n += line.length;
        at = line.next;
        if lines.len() - n < listing::LONGEST_LINE {
            output.write_all(&lines[..n])?;
            n = 0;
        }
    }
    output.write_all(&lines[..n])?;
    Ok(at)
}

// Prints the line for the end or the fault at a place of a part, before which so many bytes of the log stand.
fn print_last<W: Write>(output: &mut W, part: &[u8], at: usize, before: u64) -> io::Result<()>
    requires { before + length part.now < 2 ^ 64 }
{
    let mut line = [0; listing::LONGEST_LINE];
    let n = match logs::taken_at(part, at).answer {
        Answer::Read(_) => None,
        Answer::End => listing::end(&mut line),
        Answer::Faulty(fault) => listing::fault(
            fault.number(),
            before + fault.place() as u64,
            &mut line,
        ),
    };
    output.write_all(&line[..n.unwrap_or(0)])
}
