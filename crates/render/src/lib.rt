// The layers of a drawing, as phases or as weights, in a lent buffer. Knows no report and no codebook.
#![tactic(auto)]

ghost use Rattle.std.specs.Prelude.{◌≡◌, refl, ℕ, ◌/◌, ◌<◌, ◌≤◌, List, [], leb, length};
ghost use Rattle.ground.specs.Cases.{◌⇒◌∣◌};
ghost use Rattle.ground.specs.Lists.{over, All};
ghost use Rattle.turn.specs.Phase.{turn};
ghost use Rattle.render.specs.Rendered.{fitting_in, fitting, weighed, weighed_nothing, looked_up, looked_up_phases};

use plan::Drawing;
use turn::Part;

// The most entries of a small matrix, those of one layer of 32 ports, and the room for it with the sixteen that the writer
// asks for: a call clears its own room, which for few entries is much of what it costs.
const FEW: usize = 32;

const ROOM_FOR_FEW: usize = 48;

// The room for the largest matrix: 8 layers of 32 ports, and sixteen more.
const ROOM: usize = 272;

// What numbers of a lent buffer stand for: a phase is one number, in parts of a turn, and a weight is two, x and then y.
pub trait Entry: Copy {
    // For how many entries so many numbers are room; the numbers that phases are written as; and what `put` writes, of any
    // numbers.
    ghost room_in: { ℕ → ℕ };

    ghost numbers_of: { List ℕ → List Self };

    ghost put_of: { List ℕ → List Self };

    fn room(numbers: usize) -> usize
        ensures { result ≡ room_in numbers };

    // Writes phases to the front of `out`, where there is room for them. Otherwise all of it stays as lent.
    fn put(phases: &[Part], out: &mut [Self])
        ensures { out.new ≡ over (leb (length phases.now) (room_in (length out.old)) ⇒ put_of phases.now ∣ []) out.old };

    ghost phases_put: { (phases : List ℕ) → All (λ e. e < turn) phases → put_of phases ≡ numbers_of phases };

    ghost nothing: { numbers_of [] ≡ [] };
}

impl Entry for Part {
    ghost room_in = { λ numbers. numbers };

    ghost numbers_of = { λ phases. phases };

    ghost put_of = { λ phases. phases };

    ghost phases_put = { λ phases below. refl };

    ghost nothing = { refl };

    fn room(numbers: usize) -> usize {
        numbers
    }

    fn put(phases: &[Part], out: &mut [Part]) {
        ground::copy(phases, phases.len(), out);
    }
}

impl Entry for i16 {
    ghost room_in = { λ numbers. numbers / 2 };

    ghost numbers_of = { weighed };

    ghost put_of = { looked_up };

    ghost phases_put = { looked_up_phases };

    ghost nothing = { weighed_nothing };

    fn room(numbers: usize) -> usize {
        numbers / 2
    }

    fn put(phases: &[Part], out: &mut [i16]) {
        if phases.len() <= out.len() / 2 {
            // By index, since a proof is told nothing of what is written through chunks.
            for (i, &e) in phases.iter().enumerate() {
                let w = lookup::weight_at(e);
                out[2 * i] = w.x;
                out[2 * i + 1] = w.y;
            }
        }
    }
}

// What `entries` writes, by way of a buffer of its own with so many places.
fn within<E: Entry, const OWN: usize>(s: Drawing, offsets: &[Part], out: &mut [E])
    requires { OWN ≤ 272 }
    ensures { out.new ≡ over (E.numbers_of (fitting_in offsets.now s OWN (E.room_in (length out.old)))) out.old }
{
    let mut own = [0; OWN];
    if let Some(n) = writer::matrix(s, offsets, &mut own) {
        E::put(&own[..n], out);
    }
}

// Writes the layers of a drawing, one after the other, to the front of `out`, to each entry the offset of its port added.
// Numbers after them stay as lent. Where the sizes are larger than any plan's, or the layers have more entries than `out` has
// room for, all of it stays.
pub fn entries<E: Entry>(s: Drawing, offsets: &[Part], out: &mut [E])
    ensures { out.new ≡ over (E.numbers_of (fitting offsets.now s (E.room_in (length out.old)))) out.old }
{
    if E::room(out.len()) <= FEW {
        within::<E, ROOM_FOR_FEW>(s, offsets, out);
    } else {
        within::<E, ROOM>(s, offsets, out);
    }
}
