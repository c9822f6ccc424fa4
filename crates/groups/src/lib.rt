// Numbers in groups of seven bits, lowest group first, a byte each, the top bit set when another byte follows.
#![tactic(auto)]

ghost use Rattle.std.specs.Prelude.{◌≡◌};
ghost use Rattle.groups.specs.Number.{is_padded, is_large, number_at};
ghost use Rattle.groups.specs.Given.{number_of, place_of, found_of};

// What is wrong with a number, and the place of the byte that shows it: a form that the scope names (docs/DECISIONS.md,
// "Forms").
#[derive(Clone, Copy, PartialEq, Eq)]
pub enum Fault {
    // The bytes end inside it, or before it; the place is that of the byte that is missing.
    Ends(usize),
    // It has several bytes, and the last is zero.
    Padded(usize),
    // Its fifth byte is above 15.
    Large(usize),
}

impl Fault {
    // The number of a fault, 1 to 3.
    pub fn number(self) -> u32
        ensures { result ≡ number_of self }
    {
        match self {
            Fault::Ends(_) => 1,
            Fault::Padded(_) => 2,
            Fault::Large(_) => 3,
        }
    }

    // Its place.
    pub fn place(self) -> usize
        ensures { result ≡ place_of self }
    {
        match self {
            Fault::Ends(p) | Fault::Padded(p) | Fault::Large(p) => p,
        }
    }
}

// A number that is read, and the place behind it.
#[derive(Clone, Copy, PartialEq, Eq)]
pub struct Numeral {
    pub value: u32,
    pub next: usize,
}

// Whether a byte, after i others of its number, is the last of several and zero.
#[tactic(auto, unfolding(crate::specs::Number::is_padded))]
fn is_padded(i: usize, b: u8) -> bool
    ensures { result ≡ is_padded i b }
{
    i > 0 && b == 0
}

// Whether it is the fifth and above 15.
#[tactic(auto, unfolding(crate::specs::Number::is_large))]
fn is_large(i: usize, b: u8) -> bool
    ensures { result ≡ is_large i b }
{
    i == 4 && b > 15
}

// Reads the number at a place: C8 01 is 200. It has the fewest bytes, at most five, and at most 32 bits; anything else is a
// fault, the first in the order of the bytes. At a place past the end nothing is left to read.
pub fn number_at(bytes: &[u8], from: usize) -> Result<Numeral, Fault>
    ensures { found_of result ≡ number_at bytes.now from }
{
    let mut value: u32 = 0;
    let mut weight: u32 = 1;
    // by place, since a fault names the place of its byte
    for at in from..bytes.len() {
        let b = bytes[at];
        if is_padded(at - from, b) {
            return Err(Fault::Padded(at));
        }
        if is_large(at - from, b) {
            return Err(Fault::Large(at));
        }
        value += (b % 128) as u32 * weight;
        if b < 128 {
            return Ok(Numeral {
                value,
                next: at + 1,
            });
        }
        weight *= 128;
    }
    Err(Fault::Ends(from.max(bytes.len())))
}
