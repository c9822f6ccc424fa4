// The matrix of a plan, written into a lent buffer. Knows no report and no codebook.
#![tactic(auto)]

ghost use Rattle.std.specs.Prelude.{◌≡◌, ◌*◌, Some, None, length};
ghost use Rattle.ground.specs.Cases.{◌⇒◌∣◌};
ghost use Rattle.plan.specs.Drawing.{height, drawn, drawable, Written};
ghost use Rattle.writer.specs.Blocks.{Laid, DrawnIn};

use fill::{PLACES, Ports};
use plan::Drawing;
use turn::Part;

mod fill;

// The entries of a drawing's layers, where its sizes are a plan's and so many and sixteen past the last have room.
fn entries(s: &Drawing, room: usize) -> Option<usize>
    ensures { result ≡ (drawable s.now room ⇒ Some (s.now.v * height s.now) ∣ None) }
{
    let block = s.rows as usize * s.columns as usize;
    // one branch for all five
    if !((s.v <= 8) & (s.pairs <= 4) & (1 <= s.columns) & (s.columns <= 4) & (block <= 16)) {
        return None;
    }
    let height = 2 * (s.pairs as usize * block);
    if 32 < height {
        return None;
    }
    let n = s.v as usize * height;
    if room < n + PLACES {
        return None;
    }
    Some(n)
}

// The layers with offsets, one after the other. Some entries after the last change, fewer than sixteen.
fn layers(s: &Drawing, ports: Ports, out: &mut [Part])
    requires { DrawnIn s.now (length out.old) }
    ensures { Laid out.old 0 (drawn ports.entry.offsets.now s.now s.now.v) (s.now.v * height s.now) out.new }
{
    let mut at = 0;
    for &code in &s.codes[..s.v as usize] {
        at = fill::column(s, code, ports, out, at);
    }
}

// Writes the layers of a drawing, one after the other, to the front of `out`, to each entry the offset of its port added,
// and gives the number of their entries. A port past the last offset has none; a layer has at most 32 ports. Entries after
// the layers stay as lent. Where the sizes are larger than any plan's, or `out` has not sixteen entries more than the layers,
// no number is given and all of it stays.
pub fn matrix(s: Drawing, offsets: &[Part], out: &mut [Part]) -> Option<usize>
    ensures { Written offsets.now s out.old result out.new }
{
    let end = entries(&s, out.len())?;
    let mut kept = [0; PLACES];
    kept.copy_from_slice(&out[end..end + PLACES]);
    let mut xs = [0; offsets::PLACES];
    offsets::reduce(offsets, &mut xs);
    layers(&s, Ports { offsets: &xs }, out);
    out[end..end + PLACES].copy_from_slice(&kept);
    Some(end)
}
