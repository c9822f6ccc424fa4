// A single-panel report is judged by `verdict`.
ghost use Rattle.report.specs.Rules.{InRange};
ghost use Rattle.single.specs.Single.{single};
ghost use Rattle.single.specs.Drawing.{drawing_of};
ghost use Rattle.single.proofs.Lawful.{single_lawful};
ghost use Rattle.single.proofs.Drawn.{drawing_draws};

use crate::Judge;
use plan::{Accepted, Site};
use refusal::Refusal;
use report::Report;

impl Judge for Report {
    ghost codebook = { single };

    ghost drawing_of = { drawing_of };

    ghost InRange = { InRange };

    ghost lawful = { single_lawful };

    ghost draws = { drawing_draws };

    #[inline(always)]
    fn judge(self, site: Site, room: usize) -> Result<Accepted, Refusal> {
        verdict::judge(self, site, room)
    }
}
