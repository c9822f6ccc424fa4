// The settings (N1,N2) of the single-panel codebook, and how many values each index has.
#![tactic(auto)]

ghost use Rattle.std.specs.Prelude.{◌≡◌, ◌≤◌};
ghost use Rattle.ground.specs.Cases.{◌⇒◌∣◌};
ghost use Rattle.settings.specs.Settings.{is_setting, down, mask_bytes, sizes_of};
ghost use Rattle.settings.specs.Ranges.{ranges_of};
ghost use Rattle.settings.specs.Outcome.{unranked, told};

use refusal::Refusal;

mod values;

pub use values::{is_half_length, is_mode_two};

// What follows from a setting: the ports P, N1·O1 and N2·O2, and the bytes of the beam mask. Zeros for a pair that is none.
#[derive(Clone, Copy, Default)]
pub struct Sizes {
    pub ports: u32,
    pub across: u32,
    pub down: u32,
    pub bytes: u32,
}

// What follows from the setting, and how many values each index has: 0 to one less is in range.
#[derive(Clone, Copy)]
pub struct Ranges {
    pub sizes: Sizes,
    pub i11: u32,
    pub i12: u32,
    pub i13: u32,
    pub i2: u32,
}

// What is said of a refused report: why it is, and what follows from its setting, zeros where it has none.
#[derive(Clone, Copy)]
pub struct Refused {
    pub refusal: Refusal,
    pub sizes: Sizes,
}

// Bit N1 of entry N2 is one where (N1,N2) is a setting.
const SETTINGS: [u32; 5] = [
    0,
    0b1_0001_0001_0101_0110, // N2 = 1: N1 = 1, 2, 4, 6, 8, 12, 16
    0b1_0101_1100, // N2 = 2: 2, 3, 4, 6, 8
    0b1_0000, // N2 = 3: 4
    0b1_0000, // N2 = 4: 4
];

// Tests the pair itself: many pairs that are not settings have the ports of one.
fn is_setting(n1: u32, n2: u32) -> bool
    ensures { result ≡ is_setting n1 n2 }
{
    n1 <= 16 && n2 <= 4 && (SETTINGS[n2 as usize] >> n1) % 2 == 1
}

// N2·O2.
fn beams_down(n2: u32) -> u32
    requires { n2 ≤ 4 }
    ensures { result ≡ down n2 }
{
    if 1 < n2 { n2 * 4 } else { n2 }
}

// What follows from a setting; nothing for a pair that is none. (1,1) is the one setting with N1 = 1. (2,1) has 4 ports, 8
// beams across, 1 down and 1 byte. A pair goes as two numbers, as C and a report have it: it may be no setting.
pub fn sizes_of(n1: u32, n2: u32) -> Option<Sizes>
    ensures { result ≡ (is_setting n1 n2 ⇒ Some (sizes_of n1 n2) ∣ None) }
{
    if !is_setting(n1, n2) {
        return None;
    }
    if n1 == 1 {
        return Some(Sizes {
            ports: 2,
            across: 1,
            down: 1,
            bytes: 1,
        });
    }
    let across = n1 * 4;
    let down = beams_down(n2);
    Some(Sizes {
        ports: 2 * (n1 * n2),
        across,
        down,
        bytes: across * down / 8,
    })
}

// How many bytes the beam mask of a setting has, 1 to 32; 0 for a pair that is no setting, as C is told it.
pub fn mask_bytes(n1: u32, n2: u32) -> u32
    ensures { result ≡ (is_setting n1 n2 ⇒ mask_bytes n1 n2 ∣ 0) }
{
    sizes_of(n1, n2).map_or(0, |s| s.bytes)
}

// What follows from the setting, and how many values each index has, unless the setting, the mode or the rank is none. (2,1)
// with mode 1 and two layers has 8, 1, 2 and 2.
#[inline(always)]
pub fn ranges_of(n1: u32, n2: u32, mode: u32, v: u32) -> Result<Ranges, Refused>
    ensures { result ≡ told (ranges_of n1 n2 mode v) (sizes_of n1 n2) (unranked n1 n2 mode v) }
{
    let Some(sizes) = sizes_of(n1, n2) else {
        return Err(Refused {
            refusal: Refusal::NO_SETTING,
            sizes: Sizes::default(),
        });
    };
    if !(1..=2).contains(&mode) {
        return Err(Refused {
            refusal: Refusal::NO_MODE,
            sizes,
        });
    }
    if v == 0 || 8 < v || sizes.ports < v {
        return Err(Refused {
            refusal: Refusal::NO_RANK,
            sizes,
        });
    }
    Ok(match v {
        ..=2 => values::one_or_two(n1, mode, v, sizes),
        ..=4 => values::three_or_four(sizes),
        ..=6 => values::plain(sizes, 1),
        _ => values::seven_or_eight(n1, n2, sizes),
    })
}
