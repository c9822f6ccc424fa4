// A single-panel report by its own numbers: the first refusal that needs nothing else, or its beams.
#![tactic(auto)]

ghost use Rattle.std.specs.Prelude.{◌≡◌};
ghost use Rattle.report.specs.Beams.{beams_of};

use settings::{Refused, Sizes};
use turn::Beam;

mod choice;
mod rules;

// A report: the setting (N1,N2), the codebook mode, the rank v, and the indices.
#[repr(C)]
#[derive(Clone, Copy)]
pub struct Report {
    pub n1: u32,
    pub n2: u32,
    pub mode: u32,
    pub v: u32,
    pub i11: u32,
    pub i12: u32,
    pub i13: u32,
    pub i2: u32,
}

// What the numbers of a report in range say: what follows from its setting; B, B', B'' and B''', reduced, (0,0) in unused
// places, and how many it has, since nothing here is on a heap; n of f(n), and whether its beams are of half length.
#[derive(Clone, Copy)]
pub struct Beams {
    pub sizes: Sizes,
    pub beams: [Beam; 4],
    pub count: u32,
    pub n: u32,
    pub half: bool,
}

// Judges a report by its own numbers, and gives its beams where they are in range; else the first of 1, 2, 4 and 6 to 9 that
// applies. (2,1) with mode 1, two layers, i11 = 7, i13 = 1 and the rest 0 has the beams (7,0) and (3,0).
#[inline(always)]
pub fn beams_of(r: Report) -> Result<Beams, Refused>
    ensures { result ≡ beams_of r }
{
    let ranges = settings::ranges_of(r.n1, r.n2, r.mode, r.v)?;
    let sizes = ranges.sizes;
    // `map_err` with `?` leaves two goals more, and reads no plainer
    match rules::indices(r, ranges) {
        Err(refusal) => Err(Refused { refusal, sizes }),
        Ok(()) => Ok(choice::Ranged { report: r, sizes }.beams()),
    }
}
