// The beams B, B', B'' and B''' of a report.
ghost use Rattle.std.specs.Prelude.{◌≡◌, ◌+◌, ◌*◌, ◌%◌, ◌≤◌};
ghost use Rattle.settings.specs.Settings.{sizes_of};
ghost use Rattle.settings.specs.Ranges.{beam};
ghost use Rattle.report.specs.Rules.{InRange};
ghost use Rattle.report.specs.Beams.{is_half, g, n, base, moved, said_all, Small};

use crate::{Beams, Report};
use rows::{K01, K10, K11, K20, K30};
use settings::Sizes;
use turn::Beam;

// In unused places.
const NONE: Beam = Beam { l: 0, m: 0 };

// A report in range, and what follows from its setting.
#[derive(Clone, Copy)]
pub struct Ranged {
    pub report: Report,
    pub sizes: Sizes,
    ghost in_range: { InRange report },
    ghost sizes_are: { sizes ≡ sizes_of report.n1 report.n2 },
}

// g of mode 2.
fn g_of(v: u32) -> u32
    ensures { result ≡ g v }
{
    if v == 1 { 4 } else { 2 }
}

// n of f(n).
#[tactic(auto, unfolding(crate::specs::Beams::n))]
fn n_of(r: Report) -> u32
    ensures { result ≡ n r }
{
    if settings::is_mode_two(r.n1, r.mode, r.v) {
        r.i2 % g_of(r.v)
    } else {
        r.i2
    }
}

// One number of a beam: x moved by k steps of 4, modulo the beams w.
fn moved_along(x: u32, k: u32, w: u32) -> u32
    requires { (x ≤ 255) × (k ≤ 255) × (1 ≤ w) }
    ensures { result ≡ (x + 4 * k) % w }
{
    (x + 4 * k) % w
}

impl Ranged {
    fn is_half(&self) -> bool
        ensures { result ≡ is_half self.now.report }
    {
        settings::is_half_length(self.sizes.ports, self.report.v)
    }

    // B, reduced. In mode 2 with N2 = 1 alone it may stand past the last beam.
    fn base(&self) -> Beam
        ensures { result ≡ moved self.now.report (base self.now.report) (beam 0 0) }
    {
        let r = self.report;
        let l = 2 * r.i11;
        if self.is_half() {
            return Beam { l, m: r.i12 };
        }
        if !settings::is_mode_two(r.n1, r.mode, r.v) {
            return Beam { l: r.i11, m: r.i12 };
        }
        let q = r.i2 / g_of(r.v);
        if 1 < r.n2 {
            return Beam {
                l: l + q % 2,
                m: 2 * r.i12 + q / 2,
            };
        }
        Beam {
            l: (l + q) % self.sizes.across,
            m: 0,
        }
    }

    // A beam moved by k steps of (O1,O2), reduced. For N2 = 1 there is one m, whatever O2.
    fn moved(&self, x: Beam, k: Beam) -> Beam
        requires { Small x × Small k }
        ensures { result ≡ moved self.now.report x k }
    {
        Beam {
            l: moved_along(x.l, k.l, self.sizes.across),
            m: moved_along(x.m, k.m, self.sizes.down),
        }
    }

    // What is said with so many of four beams.
    #[inline(always)]
    fn said(&self, count: u32, beams: [Beam; 4]) -> Beams
        ensures { result ≡ record {
          sizes = self.now.sizes;
          beams = beams;
          count = count;
          n = n self.now.report;
          half = is_half self.now.report;
        } }
    {
        Beams {
            sizes: self.sizes,
            beams,
            count,
            n: n_of(self.report),
            half: self.is_half(),
        }
    }

    // v = 5 to 8: a is B, reduced.
    fn many(&self, a: Beam) -> Beams
        requires { (a ≡ moved self.now.report (base self.now.report) (beam 0 0)) × (5 ≤ self.now.report.v) }
        ensures { result ≡ said_all self.now.report self.now.sizes }
    {
        let wide = 1 < self.report.n2;
        let b = self.moved(a, K10);
        if self.report.v <= 6 {
            let third = if wide { K11 } else { K20 };
            return self.said(3, [a, b, self.moved(a, third), NONE]);
        }
        let third = if wide { K01 } else { K20 };
        let fourth = if wide { K11 } else { K30 };
        self.said(4, [a, b, self.moved(a, third), self.moved(a, fourth)])
    }

    // The beams of the report. Two ports have no others than (0,0).
    #[inline(always)]
    pub fn beams(&self) -> Beams
        ensures { result ≡ said_all self.now.report self.now.sizes }
    {
        let r = self.report;
        if r.n1 == 1 {
            return self.said(r.v, [NONE; 4]);
        }
        let a = self.base();
        if 5 <= r.v {
            return self.many(a);
        }
        if r.v == 1 || self.is_half() {
            return self.said(1, [a, NONE, NONE, NONE]);
        }
        let b = self.moved(a, rows::k_of(r.n1, r.n2, r.v, r.i13));
        self.said(2, [a, b, NONE, NONE])
    }
}
