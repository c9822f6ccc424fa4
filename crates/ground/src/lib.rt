// What knows nothing of radio: filling a lent buffer.
#![tactic(auto)]

ghost use Rattle.std.specs.Prelude.{◌≡◌};
ghost use Rattle.ground.specs.Copied.{Copied};
ghost use Rattle.ground.specs.Lent.{to_front};

// Copies the first n of a slice to the front of another and says so, where both have so many. Otherwise the other stays as
// lent.
pub fn copy<T: Copy>(from: &[T], n: usize, to: &mut [T]) -> bool
    ensures { Copied from.now n to.old result to.new }
{
    if from.len() < n || to.len() < n {
        return false;
    }
    to[..n].copy_from_slice(&from[..n]);
    true
}

// Moves the bytes from a place up to another to the front; those after them stay. Where the second place lies before the
// first or past the end, all stay.
#[tactic(auto, unfolding(crate::specs::Lent::is_part))]
pub fn to_front(part: &mut [u8], from: usize, to: usize)
    ensures { part.new ≡ to_front from to part.old }
{
    if to < from || part.len() < to {
        return;
    }
    part.copy_within(from..to, 0);
}
