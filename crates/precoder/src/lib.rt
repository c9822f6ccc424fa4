// The precoder of a report of either codebook, written into a lent buffer.
#![tactic(auto)]

ghost use Rattle.std.specs.Prelude.{◌≡◌, length};
ghost use Rattle.plan.specs.declared.Drawing.{Drawing};
ghost use Rattle.plan.specs.Answer.{Codebook, planned, asked, refusal, judged_by, Called};
ghost use Rattle.plan.specs.Offsets.{fed_matrix};
ghost use Rattle.plan.specs.Drawing.{Draws};
ghost use Rattle.plan.specs.Lawful.{Lawful};

mod multi_panel;
mod single_panel;

use plan::{Accepted, Record, Site};
use refusal::Refusal;
use render::Entry;

// A report of a codebook, which can be judged. What a judge gives is large, so it is inlined with all that gives as much.
pub trait Judge {
    ghost codebook: { Codebook Self };

    ghost drawing_of: { Self → Drawing };

    ghost InRange: { Self → Type 0 };

    // The codebook is lawful, and what is to be written of a report in range stands for its plan.
    ghost lawful: { Lawful codebook InRange };

    ghost draws: { (r : Self) → InRange r → Draws (codebook.plan r) (drawing_of r) };

    // The first refusal that applies, or the record and what is to be written. `room` is the number of entries for which the
    // lent buffer has room.
    fn judge(self, site: Site, room: usize) -> Result<Accepted, Refusal>
        ensures { let s = site.entry in
            result ≡ judged_by (planned (codebook.plan self)) (drawing_of self)
            (refusal codebook (asked self s.mask.now s.ranks s.offsets.now room)) };
}

// Writes the entries of a report's precoder: layer after layer, each of P entries, panel by panel and the first polarisation
// of a panel first, to each the offset of its port added, modulo a turn. As phases they are numbers of parts of a turn; as
// weights x and then y of each, the pair of the table at its phase, and 11 asks for 2·v·P numbers. A report that reads a zero
// bit of the masks is refused, and so are offsets that are not one for each port, below a turn. A refusal is given by its
// number and leaves the buffer as lent; numbers past an answer stay as lent too. Nothing is pulled into range: every setting,
// mask, report, list of offsets and buffer has its answer. Of one panel (2,1) with mode 1, one layer, i11 = 1, i2 = 1 and the
// rest 0 gives the phases 0 48 96 144 with offsets of 0, and 1 50 99 148 with 1 2 3 4; and with offsets of 0 the weights
// 16384 0 11585 11585 0 16384 -11585 11585. Of several (2,2,1) with mode 1, one layer, i11 = 1, i14 = 1 0 0, i2 = 2 0 0 and the
// rest 0 gives the phases 0 48 192 240 96 144 288 336 with offsets of 0.
pub fn entries<R: Judge, E: Entry>(r: R, site: Site, out: &mut [E]) -> Record
    ensures { let s = site.entry in
        Called R.codebook r s.mask.now s.ranks s.offsets.now (E.room_in (length out.old))
        (E.numbers_of (fed_matrix s.offsets.now (R.codebook.plan r))) out.old result out.new }
{
    match r.judge(site, E::room(out.len())) {
        Ok(accepted) => {
            render::entries(accepted.drawing, site.offsets, out);
            accepted.given
        }
        Err(refusal) => Record::refused(refusal),
    }
}
