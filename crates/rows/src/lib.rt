// The rows (k1,k2) for i13, decided by the columns of the standard's tables.
#![tactic(auto)]

ghost use Rattle.std.specs.Prelude.{◌≡◌, [], ◌∷◌, eqb, get_or};
ghost use Rattle.ground.specs.Cases.{◌⇒◌∣◌};
ghost use Rattle.settings.specs.Ranges.{beam, k_two, k_three};

use turn::Beam;

// Rows by their k1 and k2, in multiples of O1 and O2: K20 is (2·O1,0).
pub const K00: Beam = Beam { l: 0, m: 0 };

pub const K10: Beam = Beam { l: 1, m: 0 };

pub const K20: Beam = Beam { l: 2, m: 0 };

pub const K30: Beam = Beam { l: 3, m: 0 };

pub const K40: Beam = Beam { l: 4, m: 0 };

pub const K01: Beam = Beam { l: 0, m: 1 };

pub const K11: Beam = Beam { l: 1, m: 1 };

// Where a column has no row.
const BLANK: Beam = Beam { l: 0, m: 0 };

// The row of a column for i13, which is 0, 1, 2 or 3 down the table. By cases, as the columns are: no list is stored.
fn row(i13: u32, first: Beam, second: Beam, third: Beam, fourth: Beam) -> Beam
    ensures { result ≡ get_or (first ∷ second ∷ third ∷ fourth ∷ []) i13 (beam 0 0) }
{
    match i13 {
        0 => first,
        1 => second,
        2 => third,
        3 => fourth,
        _ => BLANK,
    }
}

// Table 5.2.2.2.1-3 has the rows for two layers. The next one has its own tests, so that each table is a function.
#[tactic(auto, using(crate::proofs::Blanks::two_blanks), unfolding(settings::specs::Ranges::k_two))]
pub fn k_two(n1: u32, n2: u32, i13: u32) -> Beam
    ensures { result ≡ get_or (k_two n1 n2) i13 (beam 0 0) }
{
    if 1 < n2 && n2 < n1 {
        row(i13, K00, K10, K01, K20) // N1 > N2 > 1
    } else if 1 < n2 && n1 == n2 {
        row(i13, K00, K10, K01, K11) // N1 = N2
    } else if n1 == 2 {
        row(i13, K00, K10, BLANK, BLANK) // N1 = 2, N2 = 1
    } else {
        row(i13, K00, K10, K20, K30) // N1 > 2, N2 = 1
    }
}

// Table 5.2.2.2.1-4, and of several panels Table 5.2.2.2.2-2, has those for three and four layers.
#[tactic(auto, using(crate::proofs::Blanks::blank, crate::proofs::Blanks::three_blanks), unfolding(settings::specs::Ranges::k_three))]
pub fn k_three(n1: u32, n2: u32, i13: u32) -> Beam
    ensures { result ≡ get_or (k_three n1 n2) i13 (beam 0 0) }
{
    match (n1, n2) {
        (2, 1) => row(i13, K10, BLANK, BLANK, BLANK),
        (4, 1) => row(i13, K10, K20, K30, BLANK),
        (_, 1) => row(i13, K10, K20, K30, K40), // N1 = 6; of several panels N1 = 8
        (2, _) => row(i13, K10, K01, K11, BLANK), // N2 = 2
        _ => row(i13, K10, K01, K11, K20), // N1 = 3, N2 = 2; of several panels N1 = 4, N2 = 2
    }
}

// The row for i13 at two layers, or at three and four. The numbers go one by one: each codebook has reports of its own.
pub fn k_of(n1: u32, n2: u32, v: u32, i13: u32) -> Beam
    ensures { result ≡ get_or (eqb v 2 ⇒ k_two n1 n2 ∣ k_three n1 n2) i13 (beam 0 0) }
{
    if v == 2 {
        k_two(n1, n2, i13)
    } else {
        k_three(n1, n2, i13)
    }
}
