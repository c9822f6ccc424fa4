// How many values each index has.
ghost use Rattle.std.specs.Prelude.{◌≡◌, not, ◌&&◌, ◌-◌, ◌/◌, eqb, leb, ltb};
ghost use Rattle.ground.specs.Cases.{◌⇒◌∣◌};
ghost use Rattle.settings.specs.Ranges.{mode_two, half_length};

use crate::{Ranges, Sizes};

// Mode 2 acts on one and two layers, and not on two ports.
#[tactic(auto, unfolding(crate::specs::Ranges::mode_two))]
pub fn is_mode_two(n1: u32, mode: u32, v: u32) -> bool
    ensures { result ≡ mode_two n1 mode v }
{
    mode == 2 && v <= 2 && n1 != 1
}

// Three and four layers at 16 ports or more.
#[tactic(auto, unfolding(crate::specs::Ranges::half_length))]
pub fn is_half_length(p: u32, v: u32) -> bool
    ensures { result ≡ half_length p v }
{
    (3..=4).contains(&v) && 16 <= p
}

// Nothing halved, and two values of i2.
pub fn plain(s: Sizes, i13: u32) -> Ranges
    ensures { result ≡ record { sizes = s; i11 = s.across; i12 = s.down; i13 = i13; i2 = 2 } }
{
    Ranges {
        sizes: s,
        i11: s.across,
        i12: s.down,
        i13,
        i2: 2,
    }
}

// How many values i13 has at two layers of p ports.
fn second_beams(p: u32) -> u32
    ensures { result ≡ (ltb p 8 ⇒ p / 2 ∣ 4) }
{
    if p < 8 { p / 2 } else { 4 }
}

// One and two layers where mode 2 acts. One beam down is not halved.
fn in_mode_two(v: u32, s: Sizes) -> Ranges
    ensures { result ≡ record {
      sizes = s;
      i11 = s.across / 2;
      i12 = s.down - s.down / 2;
      i13 = eqb v 1 ⇒ 1 ∣ ltb s.ports 8 ⇒ s.ports / 2 ∣ 4;
      i2 = eqb v 1 ⇒ 16 ∣ 8;
    } }
{
    let one = v == 1;
    Ranges {
        sizes: s,
        i11: s.across / 2,
        i12: s.down - s.down / 2,
        i13: if one { 1 } else { second_beams(s.ports) },
        i2: if one { 16 } else { 8 },
    }
}

// One and two layers.
pub fn one_or_two(n1: u32, mode: u32, v: u32, s: Sizes) -> Ranges
    ensures { result ≡ record {
      sizes = s;
      i11 = mode_two n1 mode v ⇒ s.across / 2 ∣ s.across;
      i12 = mode_two n1 mode v ⇒ s.down - s.down / 2 ∣ s.down;
      i13 = eqb v 1 ⇒ 1 ∣ ltb s.ports 8 ⇒ s.ports / 2 ∣ 4;
      i2 = mode_two n1 mode v ⇒ (eqb v 1 ⇒ 16 ∣ 8) ∣ (eqb v 1 ⇒ 4 ∣ 2);
    } }
{
    if is_mode_two(n1, mode, v) {
        return in_mode_two(v, s);
    }
    if v == 1 {
        return Ranges {
            i2: 4,
            ..plain(s, 1)
        };
    }
    plain(s, second_beams(s.ports))
}

// Three and four layers. Beams are of half length from 16 ports on.
pub fn three_or_four(s: Sizes) -> Ranges
    ensures { result ≡ record {
      sizes = s;
      i11 = leb 16 s.ports ⇒ s.across / 2 ∣ s.across;
      i12 = s.down;
      i13 = leb 16 s.ports ⇒ 4 ∣ eqb s.ports 8 ⇒ 3 ∣ eqb s.ports 4 ⇒ 1 ∣ 4;
      i2 = 2;
    } }
{
    if 16 <= s.ports {
        return Ranges {
            i11: s.across / 2,
            ..plain(s, 4)
        };
    }
    match s.ports {
        8 => plain(s, 3),
        4 => plain(s, 1),
        _ => plain(s, 4),
    }
}

// Seven and eight layers. With N2 other than 2, (4,1) alone has eight ports.
pub fn seven_or_eight(n1: u32, n2: u32, s: Sizes) -> Ranges
    ensures { result ≡ record {
      sizes = s;
      i11 = not (eqb n2 2) && eqb s.ports 8 ⇒ s.across / 2 ∣ s.across;
      i12 = eqb n2 2 && ltb 2 n1 ⇒ s.down / 2 ∣ s.down;
      i13 = 1;
      i2 = 2;
    } }
{
    let whole = plain(s, 1);
    if n2 == 2 {
        if 2 < n1 {
            return Ranges {
                i12: s.down / 2,
                ..whole
            };
        }
        return whole;
    }
    if s.ports == 8 {
        return Ranges {
            i11: s.across / 2,
            ..whole
        };
    }
    whole
}
