// The beams of a report.
ghost use Rattle.std.specs.Prelude.{◌≡◌, [], ◌∷◌};
ghost use Rattle.multi.specs.Panels.{B, B', reached, InRange};

use crate::Measured;
use turn::Beam;

impl Measured {
    // B', reduced; one layer has B alone. For N2 = 1 there is one m.
    fn second_beam(self) -> Beam
        requires { InRange self.report }
        ensures { result ≡ reached self.report B' }
    {
        let r = self.report;
        if r.v == 1 {
            return Beam { l: r.i11, m: r.i12 };
        }
        let k = rows::k_of(r.n1, r.n2, r.v, r.i13);
        let l = (r.i11 + 4 * k.l) % self.sizes.across;
        if self.sizes.down == 1 {
            return Beam { l, m: r.i12 };
        }
        Beam {
            l,
            m: (r.i12 + 4 * k.m) % self.sizes.down,
        }
    }

    // B and B', reduced. B is in range, and so it is reduced.
    pub fn beams(self) -> [Beam; 2]
        requires { InRange self.report }
        ensures { result ≡ reached self.report B ∷ reached self.report B' ∷ [] }
    {
        let first = Beam {
            l: self.report.i11,
            m: self.report.i12,
        };
        [first, self.second_beam()]
    }
}
