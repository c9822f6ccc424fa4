// Single-panel reports, judged: the first refusal that applies, or what is to be written.
#![tactic(auto)]

ghost use Rattle.std.specs.Prelude.{◌≡◌, Err, false, [], ◌∷◌};
ghost use Rattle.plan.specs.Answer.{planned, asked, refusal, judged_by};
ghost use Rattle.report.specs.Beams.{beams_of};
ghost use Rattle.masks.specs.Admitted.{bits_of};
ghost use Rattle.single.specs.Masks.{bits_read};
ghost use Rattle.single.specs.Plan.{plan};
ghost use Rattle.single.specs.Single.{single};
ghost use Rattle.single.specs.Drawing.{drawing_of};

use masks::Needs;
use plan::{Accepted, Drawing, Site};
use ranged::Ranged;
use refusal::Refusal;
use report::Report;
use settings::Refused;
use turn::{Beam, Phase};

mod half;
mod ranged;

// Judges a report that its own numbers refuse: a refusal that is tried before may apply too. `panels` has the same of its
// codebook: one function for both would take a trait for its contract, and be longer than the two.
fn refused(r: Report, why: Refused, site: Site, room: usize) -> Result<Accepted, Refusal>
    requires { beams_of r ≡ Err why }
    ensures { let s = site.entry in
        result ≡ judged_by (planned (plan r)) (drawing_of r) (refusal single (asked r s.mask.now s.ranks s.offsets.now room)) }
{
    let needs = Needs {
        own: Err(why.refusal),
        bytes: why.sizes.bytes,
        v: r.v,
        ports: 0,
        entries: 0,
        width: 0,
        beams: &[],
    };
    masks::admit(needs, site, room)?;
    Err(why.refusal)
}

// The bit that a report of two ports reads, as that of a beam in a mask without bits for l.
#[tactic(auto, unfolding(single::specs::Masks::bits_read, single::specs::Masks::two_port_bit, masks::specs::Admitted::bits_of))]
fn bit_read(x: Ranged) -> Beam
    requires { x.r.n1 ≡ 1 }
    ensures { bits_of 0 (result ∷ []) ≡ bits_read x.r }
{
    let r = x.r;
    Beam {
        l: 0,
        m: if r.v == 1 { r.i2 } else { 4 + r.i2 },
    }
}

// What is given of an accepted report with whole beams, and what is to be written.
#[inline(always)]
fn accepted(x: Ranged) -> Accepted
    requires { x.b.half ≡ false }
    ensures { result ≡ record { given = planned (plan x.r); drawing = drawing_of x.r } }
{
    let r = x.r;
    let layers = single::of_whole_beams(r.v, x.b.beams);
    let f = Phase::quarters(x.b.n);
    let v = r.v;
    let steps = x.steps();
    let codes = layers.codes;
    let drawing = Drawing {
        v,
        pairs: 1,
        rows: r.n1,
        columns: r.n2,
        steps,
        co: [0, f.parts, 0, 0, 0, 0, 0, 0],
        codes,
    };
    x.accepted(layers, drawing)
}

// Judges a report by the refusals 1 to 11 and 13: the first that applies is given, and otherwise what is to be written.
// `room` is the number of entries for which the lent buffer has room.
#[inline(always)]
pub fn judge(r: Report, site: Site, room: usize) -> Result<Accepted, Refusal>
    ensures { let s = site.entry in
        result ≡ judged_by (planned (plan r)) (drawing_of r) (refusal single (asked r s.mask.now s.ranks s.offsets.now room)) }
{
    let x = match Ranged::of(r) {
        Ok(x) => x,
        Err(why) => return refused(r, why, site, room),
    };
    let down = x.b.sizes.down;
    if x.b.half {
        x.admit(down, &half::beams_read(x), site, room)?;
        return Ok(half::accepted(x));
    }
    if x.r.n1 == 1 {
        x.admit(0, &[bit_read(x)], site, room)?;
    } else {
        let beams = x.b.beams;
        x.admit(down, &beams[..x.b.count as usize], site, room)?;
    }
    Ok(accepted(x))
}
