// A multi-panel report is judged by `panels`.
ghost use Rattle.multi.specs.Panels.{InRange, panels};
ghost use Rattle.multi.proofs.Lawful.{panels_lawful};
ghost use Rattle.panels.specs.Drawing.{drawing_of};
ghost use Rattle.panels.proofs.Drawn.{drawing_draws};

use crate::Judge;
use multi::PanelReport;
use plan::{Accepted, Site};
use refusal::Refusal;

impl Judge for PanelReport {
    ghost codebook = { panels };

    ghost drawing_of = { drawing_of };

    ghost InRange = { InRange };

    ghost lawful = { panels_lawful };

    ghost draws = { drawing_draws };

    #[inline(always)]
    fn judge(self, site: Site, room: usize) -> Result<Accepted, Refusal> {
        panels::judge(self, site, room)
    }
}
