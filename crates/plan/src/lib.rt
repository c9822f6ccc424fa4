// What a precoder is made of, for any codebook, and what a call answers.
#![tactic(auto)]

ghost use Rattle.std.specs.Prelude.{◌≡◌};
ghost use Rattle.plan.specs.Answer.{refused, accepted_as};

use refusal::Refusal;
use turn::{Beam, Part};

// What a call answers: the number of the refusal and zeros; or 0, the ports P, the layers v, the scale v·P, and for each
// layer its beam (l,m), reduced: layers of one beam repeat it, and a half-length beam of (l,m) stands as (2·l, m). Beams
// past the last layer are (0,0), and so are all of two ports. A true precoder is the entries divided by the square root of
// the scale.
#[repr(C)]
#[derive(Clone, Copy)]
pub struct Record {
    // a number and no Result, since C reads it
    pub refusal: u32,
    pub ports: u32,
    pub layers: u32,
    pub scale: u32,
    pub beams: [Beam; 8],
}

// What the writer is handed of a plan: v layers; a column of so many pairs of blocks, each block of rows by columns; the
// steps of up to four beams, x + 512·y for x parts of a turn from row to row and y from entry to entry; and up to eight
// co-phases. The code of a layer is 512 times the place of its beam, 256 more where it takes the co-phases, and 2^q more
// where half a turn is added to block q. The arrays have room for any plan, since nothing here is on a heap.
#[derive(Clone, Copy)]
pub struct Drawing {
    pub v: u32,
    pub pairs: u32,
    pub rows: u32,
    pub columns: u32,
    pub steps: [u32; 4],
    pub co: [Part; 8],
    pub codes: [u16; 8],
}

// The layers of a report, each in its place of eight: its code, and its beam. Unused places have 0, and no beam. The beams
// stand apart from the codes, since a record, which C reads, has them so.
#[derive(Clone, Copy)]
pub struct Lineup {
    pub codes: [u16; 8],
    pub beams: [Beam; 8],
}

// A report that is accepted: its record, and what is to be written.
#[derive(Clone, Copy)]
pub struct Accepted {
    pub given: Record,
    pub drawing: Drawing,
}

// What belongs to an array and not to a report: the beam mask, the rank mask, and the offsets of its ports. The room of a lent
// buffer is a call's, and goes beside it.
#[derive(Clone, Copy)]
pub struct Site<'a> {
    pub mask: &'a [u8],
    pub ranks: u8,
    pub offsets: &'a [Part],
}

impl Record {
    // The record of a report that is refused: the number, zeros and no beam.
    pub fn refused(refusal: Refusal) -> Record
        ensures { result ≡ refused refusal.number }
    {
        let none = Beam { l: 0, m: 0 };
        Record {
            refusal: refusal.number,
            ports: 0,
            layers: 0,
            scale: 0,
            beams: [none; 8],
        }
    }
}

// A report that is accepted: its ports, layers, scale and beams, and what is to be written of it.
pub fn accept(ports: u32, layers: u32, scale: u32, beams: [Beam; 8], drawing: Drawing) -> Accepted
    ensures { result ≡ accepted_as ports layers scale beams drawing }
{
    Accepted {
        given: Record {
            refusal: 0,
            ports,
            layers,
            scale,
            beams,
        },
        drawing,
    }
}
