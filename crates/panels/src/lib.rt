// A multi-panel report, judged.
#![tactic(auto)]

ghost use Rattle.std.specs.Prelude.{◌≡◌, Err};
ghost use Rattle.plan.specs.Answer.{planned, asked, refusal, judged_by};
ghost use Rattle.multi.specs.Panels.{plan, panels};
ghost use Rattle.multi.specs.Own.{own_of};
ghost use Rattle.panels.specs.Drawing.{drawing_of};

use masks::Needs;
use multi::PanelReport;
use plan::{Accepted, Site};
use ranged::Ranged;
use refusal::Refusal;
use settings::Refused;

mod layers;
mod ranged;

// Judges a report that its own numbers refuse: a refusal that is tried before may apply too. `verdict` has the same of its
// codebook: one function for both would take a trait for its contract, and be longer than the two.
fn refused(r: PanelReport, why: Refused, site: Site, room: usize) -> Result<Accepted, Refusal>
    requires { own_of r ≡ Err why }
    ensures { let s = site.entry in
        result ≡ judged_by (planned (plan r)) (drawing_of r) (refusal panels (asked r s.mask.now s.ranks s.offsets.now room)) }
{
    let needs = Needs {
        own: Err(why.refusal),
        bytes: why.sizes.bytes,
        v: r.v,
        ports: 0,
        entries: 0,
        width: 0,
        beams: &[],
    };
    masks::admit(needs, site, room)?;
    Err(why.refusal)
}

// Judges a report by the refusals 1 to 13, with 12 for i14 between 8 and 9: the first that applies is given, and otherwise
// its record and what is to be written. Masks are those of one panel, offsets are those of all ports, and `room` is the
// number of entries for which the lent buffer has room.
#[inline(always)]
pub fn judge(r: PanelReport, site: Site, room: usize) -> Result<Accepted, Refusal>
    ensures { let s = site.entry in
        result ≡ judged_by (planned (plan r)) (drawing_of r) (refusal panels (asked r s.mask.now s.ranks s.offsets.now room)) }
{
    let own = match multi::own_of(r) {
        Ok(own) => own,
        Err(why) => return refused(r, why, site, room),
    };
    let x = Ranged { r, own };
    let beams = own.beams;
    masks::admit(x.needs(&beams), site, room)?;
    Ok(x.accepted())
}
