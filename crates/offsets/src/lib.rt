// Offsets of ports: which lists are refused, and how a list is read. Knows no plan and no codebook.
#![tactic(auto)]

ghost use Rattle.std.specs.Prelude.{◌≡◌};
ghost use Rattle.offsets.specs.Offsets.{unfit, reduced};

use turn::{Part, TURN};

// The places of offsets as they are read: those of 32 ports, and sixteen more, so that from every port on there are sixteen.
pub const PLACES: usize = 48;

// Whether offsets are refused: they are not one for each port, or one of them is a turn or more.
pub fn is_unfit(ports: u32, offsets: &[Part]) -> bool
    ensures { result ≡ unfit ports offsets.now }
{
    if offsets.len() != ports as usize {
        return true;
    }
    // The largest of them all: a search that ends at the first is not vectorised, and a `fold` takes more instructions.
    let mut largest = 0;
    for o in offsets {
        if largest < *o {
            largest = *o;
        }
    }
    TURN <= largest
}

// Takes the offsets of 32 ports into the first places, reduced, and 0 where there is none and into the other places. (By
// place: `zip` takes four instructions more.)
pub fn reduce(offsets: &[Part], xs: &mut [Part; PLACES])
    ensures { xs.new ≡ reduced offsets.now }
{
    let n = offsets.len().min(32);
    *xs = [0; PLACES];
    for (i, o) in offsets[..n].iter().enumerate() {
        xs[i] = *o % TURN;
    }
}

// The same, in places of its own. It is public and stays; the writer calls the other, whose places are not copied.
pub fn reduced(offsets: &[Part]) -> [Part; PLACES]
    ensures { result ≡ reduced offsets.now }
{
    let mut xs = [0; PLACES];
    reduce(offsets, &mut xs);
    xs
}
