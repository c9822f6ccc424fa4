// A line of text, answered by text.
#![tactic(auto)]

ghost use Rattle.std.specs.Prelude.{◌≡◌};
ghost use Rattle.std.specs.Option.{option_map};
ghost use Rattle.settings.specs.Settings.{sizes_of};
ghost use Rattle.printer.specs.Prints.{answer_by, Outcome, Prints};

use plan::{Record, Site};
use report::Report;
use settings::Sizes;

// The numbers of the first line of a precoder's text: the ports P, the layers v and the scale v·P.
#[derive(Clone, Copy)]
pub struct FirstLine {
    pub ports: u32,
    pub layers: u32,
    pub scale: u32,
}

// How a line is answered: by a precoder, of which the first line is held, by a refusal, with its number as a record has it for
// C, or by the word that it has not the form of a report.
#[derive(Clone, Copy)]
pub enum Answer {
    Accepted(FirstLine),
    // any number that a record has
    Refused(u32),
    Unreadable,
}

// An answer, and how many bytes of text stand in the buffer, which is the caller's.
#[derive(Clone, Copy)]
pub struct Printed {
    pub answer: Answer,
    pub length: usize,
}

// The bytes of the longest text: a buffer of so many has room for every answer.
pub const LONGEST_TEXT: usize = text::LONGEST_TEXT;

// How a record answers. As a `From` it would be public, for one caller.
fn answer_by(a: Record) -> Answer
    ensures { result ≡ answer_by a }
{
    let number = a.refusal;
    if number != 0 {
        return Answer::Refused(number);
    }
    Answer::Accepted(FirstLine {
        ports: a.ports,
        layers: a.layers,
        scale: a.scale,
    })
}

// An answer with the length of its text, where this was written.
fn given(answer: Answer, length: Option<usize>) -> Option<Printed>
    ensures { result ≡ option_map (λ n. record { answer = answer; length = n }) length }
{
    let length = length?;
    Some(Printed { answer, length })
}

// What follows from the setting of a report; zeros where it is none.
fn sizes_of(r: Report) -> Sizes
    ensures { result ≡ sizes_of r.n1 r.n2 }
{
    settings::sizes_of(r.n1, r.n2).unwrap_or_default()
}

// The text for a report, all mask bits ones and all offsets 0.
fn answer_to(r: Report, out: &mut [u8]) -> Option<Printed>
    ensures { Outcome (Some r) out.old result out.new }
{
    let sizes = sizes_of(r);
    let bytes = sizes.bytes as usize;
    let ports = sizes.ports as usize;
    let ones = [255; 32];
    let zeros = [0; 32];
    let mut phases = [0; 256];
    let site = Site {
        mask: &ones[..bytes],
        ranks: 255,
        offsets: &zeros[..ports],
    };
    let a = precoder::entries(r, site, &mut phases);
    given(answer_by(a), text::answer(a, &phases, out))
}

// Answers a line by text, with all bits of both masks ones and all offsets 0: `ok`, P, v and the scale, and then a line of
// phases for each layer; or `refused` and the number; or `unreadable`. Each line ends with a newline. The text stands at the
// front of the lent buffer, and bytes after it stay. Where the text has more bytes than are lent, None is given and every
// byte stays. The line `2 1 1 2 7 0 1 0` and a newline gives `ok 4 2 8`, `0 336 0 336` and `0 144 192 336`.
pub fn print(line: &[u8], out: &mut [u8]) -> Option<Printed>
    ensures { Prints line.now out.old result out.new }
{
    match line::read(line) {
        Some(r) => answer_to(r, out),
        None => given(Answer::Unreadable, text::unreadable(out)),
    }
}
