// The refusals that need the report alone.
ghost use Rattle.std.specs.Prelude.{◌≡◌, true, false, ◌||◌, [], ◌∷◌, eqb};
ghost use Rattle.ground.specs.Cases.{◌⇒◌∣◌};
ghost use Rattle.ground.specs.First.{first};
ghost use Rattle.refusal.specs.Outcome.{outcome};
ghost use Rattle.settings.specs.Settings.{sizes_of};
ghost use Rattle.multi.specs.Panels.{is_panel_setting, mode_fits, i14_values, i2_values, outside, rule};
ghost use Rattle.multi.specs.Panels.{own_order};

use crate::{Measured, PanelReport};
use refusal::Refusal;

// Whether Ng panels of so many ports each are a setting. Four panels of 16 would have more than 32.
fn is_setting(ng: u32, ports: u32) -> bool
    ensures { result ≡ (eqb ports 16 ⇒ eqb ng 2 ∣ eqb ports 8 || eqb ports 4 ⇒ eqb ng 2 || eqb ng 4 ∣ false) }
{
    match ports {
        16 => ng == 2,
        8 | 4 => ng == 2 || ng == 4,
        _ => false,
    }
}

// Mode 1, or mode 2 with two panels.
#[tactic(auto, unfolding(crate::specs::Panels::mode_fits))]
fn is_mode(ng: u32, mode: u32) -> bool
    ensures { result ≡ mode_fits ng mode }
{
    mode == 1 || mode == 2 && ng == 2
}

// How many values i13 has, by the ports of one panel.
fn i13_values(ports: u32, v: u32) -> u32
    ensures { result ≡ (eqb v 1 ⇒ 1 ∣ eqb v 2 ⇒ (eqb ports 4 ⇒ 2 ∣ 4) ∣ eqb ports 4 ⇒ 1 ∣ eqb ports 8 ⇒ 3 ∣ 4) }
{
    match (v, ports) {
        (1, _) => 1,
        (2, 4) => 2,
        (2, _) => 4,
        (_, 4) => 1,
        (_, 8) => 3,
        _ => 4,
    }
}

// How many values each number of i14 has.
#[tactic(auto, unfolding(crate::specs::Panels::i14_values))]
fn i14_values(ng: u32, mode: u32) -> [u32; 3]
    ensures { result ≡ i14_values ng mode }
{
    match (mode, ng) {
        (2, _) => [4, 4, 1],
        (_, 2) => [4, 1, 1],
        _ => [4, 4, 4],
    }
}

// How many values each number of i2 has.
#[tactic(auto, unfolding(crate::specs::Panels::i2_values))]
fn i2_values(mode: u32, v: u32) -> [u32; 3]
    ensures { result ≡ i2_values mode v }
{
    match (mode, v) {
        (2, 1) => [4, 2, 2],
        (2, _) => [2, 2, 2],
        (_, 1) => [4, 1, 1],
        _ => [2, 1, 1],
    }
}

// Whether one of three numbers is out of range.
#[tactic(auto, unfolding(crate::specs::Panels::outside))]
fn is_outside(values: [u32; 3], given: [u32; 3]) -> bool
    ensures { result ≡ outside values given }
{
    values.iter().zip(&given).any(|(n, x)| n <= x)
}

// The first of 12 and 9 that applies.
#[tactic(auto, unfolding(ground::specs::First::first, crate::specs::Panels::rule))]
fn on_phases(r: PanelReport) -> Result<(), Refusal>
    ensures { result ≡ outcome (first (rule r) (12 ∷ 9 ∷ [])) }
{
    if is_outside(i14_values(r.ng, r.mode), r.i14) {
        return Err(Refusal::I14_RANGE);
    }
    if is_outside(i2_values(r.mode, r.v), r.i2) {
        return Err(Refusal::I2_RANGE);
    }
    Ok(())
}

impl Measured {
    // The first of 1, 2 and 4 that applies.
    #[tactic(auto, using(crate::proofs::Known::by_ports_lem), unfolding(ground::specs::First::first, crate::specs::Panels::rule, crate::specs::Panels::rank_fits))]
    fn on_setting(self) -> Result<(), Refusal>
        ensures { result ≡ outcome (first (rule self.report) (1 ∷ 2 ∷ 4 ∷ [])) }
    {
        let r = self.report;
        if !is_setting(r.ng, self.sizes.ports) {
            return Err(Refusal::NO_SETTING);
        }
        if !is_mode(r.ng, r.mode) {
            return Err(Refusal::NO_MODE);
        }
        if !matches!(r.v, 1..=4) {
            return Err(Refusal::NO_RANK);
        }
        Ok(())
    }

    // The first of 6, 7 and 8 that applies, at a setting. `report` tests the same three of its own: one function for both would
    // take six numbers, and be no shorter.
    fn on_beams(self) -> Result<(), Refusal>
        requires { is_panel_setting self.report.ng self.report.n1 self.report.n2 ≡ true }
        ensures { result ≡ outcome (first (rule self.report) (6 ∷ 7 ∷ 8 ∷ [])) }
    {
        let r = self.report;
        let s = self.sizes;
        if s.across <= r.i11 {
            return Err(Refusal::I11_RANGE);
        }
        if s.down <= r.i12 {
            return Err(Refusal::I12_RANGE);
        }
        if i13_values(s.ports, r.v) <= r.i13 {
            return Err(Refusal::I13_RANGE);
        }
        Ok(())
    }

    // The first of a report's own refusals that applies.
    #[inline(always)]
    pub fn refusal(self) -> Result<(), Refusal>
        ensures { result ≡ outcome (first (rule self.report) own_order) }
    {
        self.on_setting()?;
        self.on_beams()?;
        on_phases(self.report)
    }
}
