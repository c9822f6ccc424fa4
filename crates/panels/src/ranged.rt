// A report in range: what it asks of the masks and the buffer, and what is to be written of it.
ghost use Rattle.std.specs.Prelude.{◌≡◌, [], ◌∷◌};
ghost use Rattle.settings.specs.Settings.{sizes_of};
ghost use Rattle.masks.specs.Asks.{Asks};
ghost use Rattle.plan.specs.Answer.{planned};
ghost use Rattle.multi.specs.Panels.{B, B', reached, plan, InRange, indices, panels};
ghost use Rattle.panels.specs.Drawing.{steps_of, drawing_of};

use crate::layers;
use masks::Needs;
use multi::{Own, PanelReport};
use plan::{Accepted, Drawing, Lineup};
use turn::Beam;

// `verdict` and `report` have types of this name for their reports: other facts, and other things that are made of them.
#[derive(Clone, Copy)]
pub struct Ranged {
    pub r: PanelReport,
    pub own: Own,
    ghost in_range: { InRange r },
    ghost sizes: { own.sizes ≡ sizes_of r.n1 r.n2 },
    ghost beams: { own.beams ≡ reached r B ∷ reached r B' ∷ [] },
}

impl Ranged {
    // P.
    fn ports(self) -> u32
        ensures { result ≡ (plan self.r).ports }
    {
        self.r.ng * self.own.sizes.ports
    }

    // v·P.
    fn entries(self) -> u32
        ensures { result ≡ (planned (plan self.r)).scale }
    {
        self.r.v * self.ports()
    }

    // The bit of B is asked for, and from two layers on that of B'.
    pub fn needs(self, beams: &[Beam; 2]) -> Needs
        requires { beams.now ≡ self.own.beams }
        ensures { Asks panels self.r indices result }
    {
        Needs {
            own: Ok(()),
            bytes: self.own.sizes.bytes,
            v: self.r.v,
            ports: self.ports(),
            entries: self.entries(),
            width: self.own.sizes.down,
            beams: if self.r.v == 1 { &beams[..1] } else { beams },
        }
    }

    // The steps of B and B', in four places.
    fn steps(self) -> [u32; 4]
        ensures { result ≡ steps_of self.r }
    {
        let [a, b] = self.own.beams;
        let s = self.own.sizes;
        [layers::step_of(a, s), layers::step_of(b, s), 0, 0]
    }

    // What is given where it is accepted, and what is to be written.
    pub fn accepted(self) -> Accepted
        ensures { result ≡ record { given = planned (plan self.r); drawing = drawing_of self.r } }
    {
        let Lineup { codes, beams } = layers::layers_of(self.r.v, self.own.beams);
        let steps = self.steps();
        let co = layers::co_of(self.r);
        let drawing = Drawing {
            v: self.r.v,
            pairs: self.r.ng,
            rows: self.r.n1,
            columns: self.r.n2,
            steps,
            co,
            codes,
        };
        plan::accept(self.ports(), self.r.v, self.entries(), beams, drawing)
    }
}
