// A report in range, with its beams.
ghost use Rattle.std.specs.Prelude.{◌≡◌, ◌<◌, ◌*◌, get_or, MatchResult, Err};
ghost use Rattle.masks.specs.Admitted.{bits_of};
ghost use Rattle.refusal.specs.Outcome.{outcome};
ghost use Rattle.plan.specs.Plan.{no_beam};
ghost use Rattle.plan.specs.Answer.{planned, asked, refusal};
ghost use Rattle.settings.specs.Settings.{ports, sizes_of};
ghost use Rattle.report.specs.Rules.{InRange};
ghost use Rattle.report.specs.Beams.{beams, four, said_all, beams_of};
ghost use Rattle.single.specs.Masks.{bits_read};
ghost use Rattle.single.specs.Plan.{plan};
ghost use Rattle.single.specs.Single.{single};
ghost use Rattle.single.specs.Drawing.{step_of, lineup_of, drawing_of};

use masks::Needs;
use plan::{Accepted, Drawing, Lineup, Site};
use refusal::Refusal;
use report::{Beams, Report};
use settings::Refused;
use turn::Beam;

#[derive(Clone, Copy)]
pub struct Ranged {
    pub r: Report,
    pub b: Beams,
    ghost in_range: { InRange r },
    ghost told: { b ≡ said_all r (sizes_of r.n1 r.n2) },
}

impl Ranged {
    // By a report's own numbers: itself with its beams, or why it is refused.
    #[inline(always)]
    pub fn of(r: Report) -> Result<Ranged, Refused>
        ensures { MatchResult result (λ x. x.r ≡ r) (λ why. beams_of r ≡ Err why) }
    {
        let b = report::beams_of(r)?;
        Ok(Ranged { r, b })
    }

    // v·P.
    fn entries(self) -> u32
        ensures { result ≡ self.r.v * ports self.r.n1 self.r.n2 }
    {
        self.r.v * self.b.sizes.ports
    }

    // The first refusal that applies, by the beams whose bits are read and how many bits the mask has for each l.
    pub fn admit(self, width: u32, read: &[Beam], site: Site, room: usize) -> Result<(), Refusal>
        requires { bits_of width read.now ≡ bits_read self.r }
        ensures { let s = site.entry in
            result ≡ outcome (refusal single (asked self.r s.mask.now s.ranks s.offsets.now room)) }
    {
        let needs = Needs {
            own: Ok(()),
            bytes: self.b.sizes.bytes,
            v: self.r.v,
            ports: self.b.sizes.ports,
            entries: self.entries(),
            width,
            beams: read,
        };
        masks::admit(needs, site, room)
    }

    // The step of a beam, x + 512·y for x parts of a turn from row to row and y from entry to entry. `panels` has the same sum
    // of its own: one for both would be public, and a sum of any numbers may not fit.
    fn step(self, i: usize) -> u32
        requires { i < 4 }
        ensures { result ≡ step_of self.r (get_or (beams self.r) i no_beam) }
    {
        let beams = self.b.beams;
        let x = beams[i];
        let across = turn::TURN as u32 / self.b.sizes.across;
        let down = turn::TURN as u32 / self.b.sizes.down;
        x.l * across + 512 * (x.m * down)
    }

    // The steps of the beams. Many reports have one beam.
    pub fn steps(self) -> [u32; 4]
        ensures { result ≡ four (step_of self.r) (beams self.r) }
    {
        if self.b.count == 1 {
            return [self.step(0), 0, 0, 0];
        }
        [self.step(0), self.step(1), self.step(2), self.step(3)]
    }

    // What is given where it is accepted, by its layers and what is to be written.
    pub fn accepted(self, layers: Lineup, drawing: Drawing) -> Accepted
        requires { (layers ≡ lineup_of self.r) × (drawing ≡ drawing_of self.r) }
        ensures { result ≡ record { given = planned (plan self.r); drawing = drawing_of self.r } }
    {
        let beams = layers.beams;
        plan::accept(self.b.sizes.ports, self.r.v, self.entries(), beams, drawing)
    }
}
