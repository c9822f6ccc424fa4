// A log of reports: a plain run of numbers, eight to a report, each in groups of seven bits.
#![tactic(auto)]

ghost use Rattle.std.specs.Prelude.{◌≡◌, ℕ, []};
ghost use Rattle.logs.specs.Log.{takes, step_at};
ghost use Rattle.logs.specs.Answer.{step_of, read_step, Starts, Steps, Holds};
ghost use Rattle.logs.specs.Writing.{WritesReports};

pub use coding::{NoRoom, write};
use groups::Fault;
use report::Report;

// What a reader hands out: a report, the end, which stands between reports only, or what is wrong. The scope names this form
// (docs/DECISIONS.md, "Forms").
#[derive(Clone, Copy)]
pub enum Answer {
    Read(Report),
    End,
    Faulty(Fault),
}

// An answer, and the place from which the next is read: after a report behind it, otherwise the same.
#[derive(Clone, Copy)]
pub struct Taken {
    pub answer: Answer,
    pub next: usize,
}

// A log, and the place from which it is read on.
#[derive(Clone, Copy)]
pub struct Reader<'a> {
    log: &'a [u8],
    at: usize,
}

// How many reports stand in a log before its end or its first fault, and what comes after them.
#[derive(Clone, Copy)]
pub struct Contents {
    pub reports: usize,
    pub last: Taken,
}

// A step of a log in numbers. kind is 0 for a report, 1 for the end and 2 for a fault. With a fault, fault is 1 where the log
// ends inside a report, 2 where a number of several bytes has a last byte that is zero and 3 where a number's fifth byte is
// above 15, and place is that byte's, or the log's length for 1; otherwise both are 0. next is where the next step starts:
// behind a report, and otherwise where this one did. The report's numbers are 0 unless there is one.
#[repr(C)]
#[derive(Clone, Copy)]
pub struct LogStep {
    // numbers, since C reads them
    pub kind: u32,
    pub fault: u32,
    pub place: u64,
    pub next: u64,
    pub report: Report,
}

impl From<Taken> for LogStep {
    ghost from_gives = { λ t s. s ≡ step_of t.answer t.next };

    fn from(t: Taken) -> LogStep {
        let end = LogStep {
            kind: 1,
            fault: 0,
            place: 0,
            next: t.next as u64,
            report: eight::report_of([0; 8]),
        };
        match t.answer {
            Answer::Read(report) => LogStep {
                kind: 0,
                report,
                ..end
            },
            Answer::End => end,
            Answer::Faulty(fault) => LogStep {
                kind: 2,
                fault: fault.number(),
                place: fault.place() as u64,
                ..end
            },
        }
    }
}

// Why some of the numbers of several reports are not written.
#[derive(Clone, Copy, PartialEq, Eq)]
pub enum Unwritten {
    // There is no room for the whole of the next report.
    NoRoom,
    // They are fewer than the eight of a report.
    Incomplete,
}

// What is given where several reports are to be written: how many were, the place behind the last of them, and whether these
// are all.
#[derive(Clone, Copy, PartialEq, Eq)]
pub struct ReportsWritten {
    pub reports: usize,
    pub next: usize,
    pub all: Result<(), Unwritten>,
}

// Reads the eight numbers of a report from a place on. The place moves behind each number that is read.
fn report_from(log: &[u8], at: &mut usize) -> Result<Report, Fault>
    ensures { (from : ℕ) → takes log.now from 8 [] at.old ≡ read_step result at.new from }
{
    let mut values = [0; 8];
    for value in &mut values {
        let number = groups::number_at(log, *at)?;
        *value = number.value;
        *at = number.next;
    }
    Ok(eight::report_of(values))
}

// Reads what stands at a place of a log: a report, the end, which is given at the log's length and at any place past it, or
// the first fault in the order of the bytes. The report of (2,1) with mode 1, one layer, i11 = 1, i2 = 1 and the rest 0 is
// the bytes 02 01 01 01 01 00 00 01; the number 200 is C8 01.
pub fn taken_at(log: &[u8], from: usize) -> Taken
    ensures { step_of result.answer result.next ≡ step_at log.now from }
{
    let mut next = from;
    if log.len() <= from {
        return Taken {
            answer: Answer::End,
            next,
        };
    }
    match report_from(log, &mut next) {
        Ok(report) => Taken {
            answer: Answer::Read(report),
            next,
        },
        Err(fault) => Taken {
            answer: Answer::Faulty(fault),
            next: from,
        },
    }
}

impl<'a> Reader<'a> {
    // A reader at the front of a log.
    pub fn new(log: &'a [u8]) -> Self
        ensures { Starts log.entry result }
    {
        Reader { log, at: 0 }
    }

    // Hands out the next answer. After a report the reader stands behind it. At the end and at a fault it stays, so that
    // every further call gives the same. So it is no `Iterator`: after a fault there is no last item.
    pub fn next(&mut self) -> Answer
        ensures { Steps self.old result self.new }
    {
        let t = taken_at(self.log, self.at);
        self.at = t.next;
        t.answer
    }
}

// Reads a whole log: how many reports stand before its end or its first fault, and which of both it was. A step says where
// the next one starts, so that no index is counted; and a reader is no `Iterator`, which would count them.
pub fn reports_in(log: &[u8]) -> Contents
    ensures { Holds log.now result }
{
    let mut reports = 0;
    let mut last = taken_at(log, 0);
    while let Answer::Read(_) = last.answer {
        last = taken_at(log, last.next);
        reports += 1;
    }
    Contents { reports, last }
}

// What `taken_at` gives, in numbers.
pub fn step_at(log: &[u8], from: usize) -> LogStep
    ensures { result ≡ step_at log.now from }
{
    LogStep::from(taken_at(log, from))
}

// Writes reports, eight numbers each, one after the other into a lent buffer from a place on, up to the first that has no
// room: nothing of that one is written, and those before it stand. Where fewer than eight numbers are left after the last
// report, that is said. Without numbers nothing is written and nothing refused, wherever the start is.
pub fn write_all(numbers: &[u32], out: &mut [u8], from: usize) -> ReportsWritten
    ensures { WritesReports numbers.now from out.old result out.new }
{
    let (eights, left) = numbers.as_chunks::<8>();
    let mut next = from;
    for (reports, values) in eights.iter().enumerate() {
        let Ok(place) = write(eight::report_of(*values), out, next) else {
            return ReportsWritten {
                reports,
                next,
                all: Err(Unwritten::NoRoom),
            };
        };
        next = place;
    }
    let all = if left.is_empty() {
        Ok(())
    } else {
        Err(Unwritten::Incomplete)
    };
    ReportsWritten {
        reports: eights.len(),
        next,
        all,
    }
}
