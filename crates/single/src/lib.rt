// The Type I single-panel codebook: its definitions, and the layers of a rank.
#![tactic(auto)]

ghost use Rattle.std.specs.Prelude.{◌≡◌};
ghost use Rattle.single.specs.Drawing.{whole_lineup, half_lineup};

use plan::Lineup;
use turn::Beam;

// The codes of one to eight layers of whole beams: 512 times the place of a beam, 0 to 3 for B, B', B'', B'''; 256 more where
// f is added to the second polarisation, and 2 more where half a turn is.
pub const ONE: [u16; 8] = [256, 0, 0, 0, 0, 0, 0, 0]; // [B; f]

pub const TWO: [u16; 8] = [256, 770, 0, 0, 0, 0, 0, 0]; // [B; f], [B'; f+½]

const THREE: [u16; 8] = [256, 768, 258, 0, 0, 0, 0, 0]; // [B; f], [B'; f], [B; f+½]

const FOUR: [u16; 8] = [256, 768, 258, 770, 0, 0, 0, 0]; // the same, [B'; f+½]

const FIVE: [u16; 8] = [256, 258, 512, 514, 1024, 0, 0, 0]; // [B; f], [B; f+½], [B'; 0], [B'; ½], [B''; 0]

const SIX: [u16; 8] = [256, 258, 768, 770, 1024, 1026, 0, 0]; // [B; f], [B; f+½], [B'; f], [B'; f+½], [B''; 0], [B''; ½]

const SEVEN: [u16; 8] = [256, 258, 768, 1024, 1026, 1536, 1538, 0]; // .., [B'; f], [B''; 0], [B''; ½], [B'''; 0], [B'''; ½]

const EIGHT: [u16; 8] = [256, 258, 768, 770, 1024, 1026, 1536, 1538]; // the same, with [B'; f+½] after [B'; f]

// Those of a half-length beam: half a turn is added to quarters 2 and 4, 3 and 4, 2 and 3.
const HALVES: [u16; 8] = [256, 266, 268, 262, 0, 0, 0, 0];

// The layers of a rank with the whole beams B, B', B'' and B'''. A rank above eight has those of eight.
#[tactic(auto, unfolding(crate::specs::Drawing::codes_of, crate::specs::Drawing::ranked, crate::specs::Columns::by_rank, ground::specs::Lists::places))]
pub fn of_whole_beams(v: u32, beams: [Beam; 4]) -> Lineup
    ensures { result ≡ whole_lineup v beams }
{
    let none = Beam { l: 0, m: 0 };
    let [a, b, c, d] = beams;
    // No arm of the `match`: so compiled, two ports with one layer miss their target in docs/SPEED.md.
    if v <= 1 {
        return Lineup {
            codes: ONE,
            beams: [a, none, none, none, none, none, none, none],
        };
    }
    match v {
        2 => Lineup {
            codes: TWO,
            beams: [a, b, none, none, none, none, none, none],
        },
        3 => Lineup {
            codes: THREE,
            beams: [a, b, a, none, none, none, none, none],
        },
        4 => Lineup {
            codes: FOUR,
            beams: [a, b, a, b, none, none, none, none],
        },
        5 => Lineup {
            codes: FIVE,
            beams: [a, a, b, b, c, none, none, none],
        },
        6 => Lineup {
            codes: SIX,
            beams: [a, a, b, b, c, c, none, none],
        },
        7 => Lineup {
            codes: SEVEN,
            beams: [a, a, b, c, c, d, d, none],
        },
        _ => Lineup {
            codes: EIGHT,
            beams: [a, a, b, b, c, c, d, d],
        },
    }
}

// The layers of a half-length beam, which all have it: three, and four of any other rank.
#[tactic(auto, unfolding(ground::specs::Lists::places))]
pub fn of_half_length_beam(v: u32, a: Beam) -> Lineup
    ensures { result ≡ half_lineup v a }
{
    let none = Beam { l: 0, m: 0 };
    let fourth = if v == 3 { none } else { a };
    Lineup {
        codes: HALVES,
        beams: [a, a, a, fourth, none, none, none, none],
    }
}
