// Blocks of a column, one after the other: for each panel two, one of each polarisation.
ghost use Rattle.std.specs.Prelude.{◌≡◌, ◌+◌, ◌*◌, ◌/◌, ◌<◌, ◌≤◌, length, drop};
ghost use Rattle.turn.specs.Phase.{half};
ghost use Rattle.offsets.specs.Offsets.{fed, Low};
ghost use Rattle.plan.specs.Drawing.{height, co_row, column_at};
ghost use Rattle.writer.specs.Blocks.{placed, Laid, DrawnIn};

use plan::Drawing;
use turn::{Part, TURN};

// The places of a block, the most entries that one has: a loop over them has the same number of turns whatever the setting.
pub const PLACES: usize = 16;

const HALF: Part = TURN / 2;

// The offsets of ports as they are read, each below a turn.
#[derive(Clone, Copy)]
pub struct Ports<'a> {
    pub offsets: &'a [Part; offsets::PLACES],
    pub ghost low: { Low offsets.now },
}

// A beam in rows of so many entries: a step of x parts of a turn from row to row, and of y from entry to entry. Below 16, a
// product by 34 / width and a division by 32 are a division by the width; a beam has the quotient, so that it is not taken anew
// for each block.
#[derive(Clone, Copy)]
struct Grid {
    width: u16,
    inverse: u16,
    x: u16,
    y: u16,
    ghost narrow: { (1 ≤ width) × (width ≤ 4) },
    ghost inverts: { inverse ≡ 34 / width },
    ghost nine_bits: { (x ≤ 511) × (y ≤ 511) },
}

impl Grid {
    // Draws a block of a beam into its places: at place i, which is entry b of row a, a steps of x and b of y, with c and the
    // offset of port p + i added.
    fn draw(self, c: u16, ports: Ports, p: usize, places: &mut [Part])
        requires { (c ≤ 511 + half) × (p + 16 ≤ 48) × (length places.old ≡ 16) }
        ensures { places.new ≡ fed (drop p ports.entry.offsets.now) (placed self.width self.x self.y c) }
    {
        for (i, entry) in places.iter_mut().enumerate() {
            let j = i as u16;
            let a = j * self.inverse / 32;
            let b = j - a * self.width;
            let z = a * self.x + b * self.y;
            *entry = (c + z + ports.offsets[p + i]) % TURN;
        }
    }
}

// What the code of a layer adds to each block.
fn co_phases(co: &[Part; 8], code: u16) -> [Part; 8]
    ensures { result ≡ co_row co.now code 8 }
{
    let takes = code / 256 % 2;
    let mut cs = [0; 8];
    for (q, c) in co.iter().enumerate() {
        let c = takes * (*c % 512);
        cs[q] = if (code >> q) % 2 == 1 { c + HALF } else { c };
    }
    cs
}

// The column of a layer, by its code, from place `at` on, with the offsets of its ports. A block is drawn with all its sixteen
// places, and the next one over those past its own entries, so that some entries after the column change. Gives the place
// after the column.
pub fn column(s: &Drawing, code: u16, ports: Ports, out: &mut [Part], at: usize) -> usize
    requires { DrawnIn s.now (length out.old) × (at + height s.now + 16 ≤ length out.old) }
    ensures { Laid out.old at (fed ports.entry.offsets.now (column_at s.now code)) result out.new }
{
    let place = (code / 512 % 4) as usize;
    let step = s.steps[place];
    let width = s.columns as u16;
    let grid = Grid {
        width,
        inverse: 34 / width,
        x: (step % 512) as u16,
        y: (step / 512 % 512) as u16,
    };
    let h = (s.rows * s.columns) as usize;
    let co = co_phases(&s.co, code);
    let blocks = 2 * s.pairs as usize;
    let mut to = at;
    for &c in &co[..blocks] {
        grid.draw(c, ports, to - at, &mut out[to..to + PLACES]);
        to += h;
    }
    to
}
