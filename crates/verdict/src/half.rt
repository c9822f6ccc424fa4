// Reports with half-length beams: three and four layers of 16 ports or more.
ghost use Rattle.std.specs.Prelude.{◌≡◌, true, ◌+◌, ◌-◌, ◌%◌, ◌<◌};
ghost use Rattle.plan.specs.Answer.{planned};
ghost use Rattle.masks.specs.Admitted.{bits_of};
ghost use Rattle.single.specs.Masks.{bits_read};
ghost use Rattle.single.specs.Plan.{plan};
ghost use Rattle.single.specs.Drawing.{drawing_of};

use crate::ranged::Ranged;
use plan::{Accepted, Drawing};
use turn::{Beam, Phase};

// The row of beams before row l, of so many: before row 0 stands the last.
fn row_before(l: u32, across: u32) -> u32
    requires { l < across }
    ensures { result ≡ (l + across - 1) % across }
{
    l.checked_sub(1).unwrap_or(across - 1)
}

// The beams whose bits such a report reads: its own, between those in the rows before and after it.
pub fn beams_read(x: Ranged) -> [Beam; 3]
    requires { x.b.half ≡ true }
    ensures { bits_of x.b.sizes.down result ≡ bits_read x.r }
{
    let beams = x.b.beams;
    let Beam { l, m } = beams[0];
    let across = x.b.sizes.across;
    let before = row_before(l, across);
    let after = l + 1;
    [Beam { l: before, m }, Beam { l, m }, Beam { l: after, m }]
}

// What is given of such a report that is accepted, and what is to be written: other layers, blocks, rows and co-phases than
// those of whole beams, so that one function for both would test for them four times.
#[inline(always)]
pub fn accepted(x: Ranged) -> Accepted
    requires { x.b.half ≡ true }
    ensures { result ≡ record { given = planned (plan x.r); drawing = drawing_of x.r } }
{
    let r = x.r;
    let beams = x.b.beams;
    let layers = single::of_half_length_beam(r.v, beams[0]);
    let f = Phase::quarters(x.b.n);
    let t = Phase::eighths(r.i13);
    let both = f + t;
    let v = r.v;
    let steps = x.steps();
    let codes = layers.codes;
    let drawing = Drawing {
        v,
        pairs: 2,
        rows: r.n1 / 2,
        columns: r.n2,
        steps,
        co: [0, t.parts, f.parts, both.parts, 0, 0, 0, 0],
        codes,
    };
    x.accepted(layers, drawing)
}
