// Text for answers, and what lines are made of, written into a lent buffer.
#![tactic(auto)]

ghost use Rattle.std.specs.Prelude.{◌≡◌, ◌≤◌, ◌*◌, true, [], leb, length};
ghost use Rattle.std.specs.List.{list_all};
ghost use Rattle.ground.specs.Lent.{Writes};
ghost use Rattle.text.specs.Words.{ending, ended};
ghost use Rattle.text.specs.Text.{longest, record_text, unreadable_text, printable};

use plan::Record;
use turn::Part;
use write::Text;

mod write;

// The bytes of the longest text: `ok 32 8 256`, and 8 lines of 32 phases, each of three digits and what follows it. A
// buffer of so many has room for every answer.
pub const LONGEST_TEXT: usize = 12 + 8 * 32 * 4;

// No answer has more ports or layers.
const MOST_PORTS: u32 = 32;

const MOST_LAYERS: u32 = 8;

// What follows a word after which so many are left: a space, and a newline after the last.
pub fn ending(left: usize) -> u8
    ensures { result ≡ ending left }
{
    if left == 0 { b'\n' } else { b' ' }
}

// Copies a text to the front of a lent buffer and gives the number of its bytes; bytes after them stay. Where fewer are
// lent, None is given and every byte stays.
pub fn put(text: &[u8], out: &mut [u8]) -> Option<usize>
    ensures { Writes true text.now out.old result out.new }
{
    let n = text.len();
    if ground::copy(text, n, out) {
        Some(n)
    } else {
        None
    }
}

// Writes a number in decimals without leading zeros, and what follows it where so many words are left. Both stand at the
// front of the lent buffer, bytes after them stay, and the number of their bytes is given. Where fewer are lent, None is
// given and every byte stays. 17 gives `17` and a newline where none is left, and `17` and a space where some are.
pub fn number(n: u64, left: usize, out: &mut [u8]) -> Option<usize>
    ensures { Writes true (ended n left) out.old result out.new }
{
    // not std's formats: these promise their bytes only where they say Ok, and need not say it
    let mut buffer = itoa::Buffer::new();
    let digits = buffer.format(n).as_bytes();
    let k = digits.len();
    if out.len() <= k {
        return None;
    }
    out[..k].copy_from_slice(digits);
    out[k] = ending(left);
    Some(k + 1)
}

// Whether phases have three digits at most.
fn are_short(phases: &[Part]) -> bool
    ensures { result ≡ list_all (λ x. leb x 999) phases.now }
{
    phases.iter().all(|x| *x <= 999)
}

// Whether a record has the numbers of an answer, and there are phases of three digits at most for it. A record and its phases
// go apart, as a call leaves them.
fn is_printable(a: Record, phases: &[Part]) -> bool
    ensures { result ≡ printable a phases.now }
{
    if a.refusal > 999 || a.ports > MOST_PORTS || a.layers > MOST_LAYERS || a.scale > 999 {
        return false;
    }
    let n = (a.layers * a.ports) as usize;
    n <= phases.len() && are_short(&phases[..n])
}

// Composes the text of a record.
fn compose(a: Record, phases: &[Part], text: &mut Text)
    requires fresh { text.old ≡ [] }
    requires many { a.layers * a.ports ≤ length phases.now }
    requires room { length (record_text a phases.now) ≤ longest }
    ensures { text.new ≡ record_text a phases.now }
{
    if a.refusal != 0 {
        text.word(b"refused ");
        text.number(a.refusal as u64, 0);
    } else {
        text.accepted(a);
        text.lines(phases, a.ports as usize, a.layers as usize);
    }
}

// Writes the text of a record and its phases: `ok`, P, v and the scale, and then a line of phases for each layer; or
// `refused` and the number. Each line ends with a newline. The text stands at the front of the lent buffer, bytes after it
// stay, and the number of its bytes is given. Where the text has more bytes than are lent, where P is above 32, v above 8 or
// another number above 999, or where there are fewer phases than v·P, None is given and every byte stays. The record 0, 4,
// 2, 8 with the phases 0 336 0 336 0 144 192 336 gives `ok 4 2 8`, `0 336 0 336` and `0 144 192 336`.
pub fn answer(a: Record, phases: &[Part], out: &mut [u8]) -> Option<usize>
    ensures { Writes (printable a phases.now) (record_text a phases.now) out.old result
        out.new }
{
    if !is_printable(a, phases) {
        return None;
    }
    let mut text = Text::new();
    compose(a, phases, &mut text);
    put(text.bytes(), out)
}

// Writes the text for what is no report: `unreadable` and a newline. Gives the number of its bytes; where fewer are lent,
// None is given and every byte stays.
pub fn unreadable(out: &mut [u8]) -> Option<usize>
    ensures { Writes true unreadable_text out.old result out.new }
{
    put(b"unreadable\n", out)
}
