// A multi-panel report by its own numbers: the first refusal that needs nothing else, or its beams.
#![tactic(auto)]

ghost use Rattle.std.specs.Prelude.{◌≡◌};
ghost use Rattle.settings.specs.Settings.{sizes_of};
ghost use Rattle.multi.specs.Own.{own_of};

use settings::{Refused, Sizes};
use turn::Beam;

mod beams;
mod rules;

// A report of several panels: the setting (Ng,N1,N2), the codebook mode, the rank v, and the indices. Numbers of i14 and i2
// that are not used are 0.
#[repr(C)]
#[derive(Clone, Copy)]
pub struct PanelReport {
    pub ng: u32,
    pub n1: u32,
    pub n2: u32,
    pub mode: u32,
    pub v: u32,
    pub i11: u32,
    pub i12: u32,
    pub i13: u32,
    pub i14: [u32; 3],
    pub i2: [u32; 3],
}

// What a report's own numbers say: what one panel has, and B and B', reduced.
#[derive(Clone, Copy)]
pub struct Own {
    pub sizes: Sizes,
    pub beams: [Beam; 2],
}

// A report, and what one of its panels has, zeros where (N1,N2) is no panel's.
#[derive(Clone, Copy)]
struct Measured {
    report: PanelReport,
    sizes: Sizes,
    ghost right: { sizes ≡ sizes_of report.n1 report.n2 },
}

// Judges a report by its own numbers, and gives its beams where they are in range; otherwise the first of 1, 2, 4, 6 to 8,
// 12 and 9 that applies, and what (N1,N2) has. (2,2,1) with mode 1, two layers, i11 = 7, i13 = 1 and the rest 0 has panels
// of 4 ports and the beams (7,0) and (3,0).
pub fn own_of(report: PanelReport) -> Result<Own, Refused>
    ensures { result ≡ own_of report }
{
    let sizes = settings::sizes_of(report.n1, report.n2).unwrap_or_default();
    let x = Measured { report, sizes };
    x.refusal().map_err(|refusal| Refused { refusal, sizes })?;
    Ok(Own {
        sizes,
        beams: x.beams(),
    })
}
