// The layers of a rank, the co-phases of a report, and the steps of a beam.
ghost use Rattle.std.specs.Prelude.{◌≡◌, ◌+◌, ◌*◌, ◌/◌, ◌≤◌, get_or};
ghost use Rattle.plan.specs.Plan.{no_beam};
ghost use Rattle.turn.specs.Phase.{turn};
ghost use Rattle.multi.specs.Panels.{InRange};
ghost use Rattle.panels.specs.Drawing.{lineup_of, quarters_of, in_parts};

use multi::PanelReport;
use plan::Lineup;
use settings::Sizes;
use turn::{Beam, Part, Phase};

// The codes of one to four layers: 512 for B', 256 for the co-phases, and 170 where half a turn is added to the second
// polarisation of every panel. Those of crate `single` are of two blocks, or of four quarters.
const ONE: [u16; 8] = [256, 0, 0, 0, 0, 0, 0, 0]; // W1 B

const TWO: [u16; 8] = [256, 938, 0, 0, 0, 0, 0, 0]; // W1 B, W2 B'

const THREE: [u16; 8] = [256, 768, 426, 0, 0, 0, 0, 0]; // W1 B, W1 B', W2 B

const FOUR: [u16; 8] = [256, 768, 426, 938, 0, 0, 0, 0]; // W1 B, W1 B', W2 B, W2 B'

// The layers of a report by its rank, of B and B'.
#[tactic(auto, unfolding(crate::specs::Drawing::codes_of, crate::specs::Drawing::beams_by, ground::specs::Lists::places, multi::specs::Panels::by_rank))]
pub fn layers_of(v: u32, beams: [Beam; 2]) -> Lineup
    requires { (1 ≤ v) × (v ≤ 4) }
    ensures { result ≡ lineup_of v (get_or beams 0 no_beam) (get_or beams 1 no_beam) }
{
    let [a, b] = beams;
    let none = Beam { l: 0, m: 0 };
    match v {
        1 => Lineup {
            codes: ONE,
            beams: [a, none, none, none, none, none, none, none],
        },
        2 => Lineup {
            codes: TWO,
            beams: [a, b, none, none, none, none, none, none],
        },
        3 => Lineup {
            codes: THREE,
            beams: [a, b, a, none, none, none, none, none],
        },
        _ => Lineup {
            codes: FOUR,
            beams: [a, b, a, b, none, none, none, none],
        },
    }
}

// The co-phases in quarters of a turn, panel by panel. In mode 2 a(p) times b(n) is p + n of them.
#[tactic(auto, using(multi::proofs::InRange::i14_small, multi::proofs::InRange::i2_small), unfolding(crate::specs::Drawing::quarters_of))]
fn quarters_of(r: PanelReport) -> [u32; 8]
    requires { InRange r }
    ensures { result ≡ quarters_of r }
{
    let [p1, p2, p3] = r.i14;
    let [f, n1, n2] = r.i2;
    match (r.mode, r.ng) {
        (2, _) => [0, f, p1 + n1, p2 + n2, 0, 0, 0, 0],
        (_, 2) => [0, f, p1, f + p1, 0, 0, 0, 0],
        _ => [0, f, p1, f + p1, p2, f + p2, p3, f + p3],
    }
}

// Those in parts of a turn.
pub fn co_of(r: PanelReport) -> [Part; 8]
    requires { InRange r }
    ensures { result ≡ in_parts (quarters_of r) }
{
    quarters_of(r).map(|n| Phase::quarters(n).parts)
}

// The steps of a beam, x + 512·y. The sum stands in `verdict` too: it needs a `requires`, which no public function has.
pub fn step_of(x: Beam, s: Sizes) -> u32
    requires { (x.l ≤ 255) × (x.m ≤ 255) × (1 ≤ s.across) × (1 ≤ s.down) }
    ensures { result ≡ x.l * (turn / s.across) + 512 * (x.m * (turn / s.down)) }
{
    x.l * (turn::TURN as u32 / s.across) + 512 * (x.m * (turn::TURN as u32 / s.down))
}
