// Reports as a log has them, written: eight numbers, each in groups of seven bits, into a lent buffer from any place on.
#![tactic(auto)]

ghost use Rattle.std.specs.Prelude.{◌≡◌, ◌+◌, ◌≤◌, leb, length, sum_by};
ghost use Rattle.ground.specs.Lists.{along};
ghost use Rattle.ground.specs.Lent.{Adds};
ghost use Rattle.groups.specs.Number.{code};
ghost use Rattle.coding.specs.Coding.{WritesReport};

use report::Report;

// There is no room for the whole of a report, which was to start at this place.
#[derive(Clone, Copy, PartialEq, Eq)]
pub struct NoRoom {
    pub from: usize,
}

// How many bytes a number has, 1 to 5: each has seven bits of it.
#[tactic(auto, using(crate::proofs::Lengths::one, crate::proofs::Lengths::two, crate::proofs::Lengths::three, crate::proofs::Lengths::four, crate::proofs::Lengths::five))]
fn length_of(n: u32) -> usize
    ensures value { result ≡ length (code n) }
    ensures few { (1 ≤ result) × (result ≤ 5) }
{
    match n {
        0..=0x7f => 1,
        0x80..=0x3fff => 2,
        0x4000..=0x1f_ffff => 3,
        0x20_0000..=0xfff_ffff => 4,
        _ => 5,
    }
}

// How many bytes the numbers of a report have.
fn bytes_of(values: [u32; 8]) -> usize
    ensures { result ≡ sum_by (λ n. length (code n)) values }
{
    values.iter().map(|n| length_of(*n)).sum()
}

// Whether so many bytes have room from a place of a buffer of a size on.
fn is_room(bytes: usize, from: usize, size: usize) -> bool
    ensures { result ≡ leb (from + bytes) size }
{
    from <= size && bytes <= size - from
}

// Writes a number at the front of a buffer that has room for it, and gives how many bytes it has. 200 gives C8 01.
fn put(n: u32, out: &mut [u8]) -> usize
    requires { length (code n) ≤ length out.old }
    ensures { Adds (code n) 0 out.old result out.new }
{
    let last = length_of(n) - 1;
    let mut rest = n;
    for byte in &mut out[..last] {
        *byte = 128 + (rest % 128) as u8;
        rest /= 128;
    }
    out[last] = rest as u8;
    last + 1
}

// Writes a report into a lent buffer from a place on, where there is room for the whole of it, and gives the place behind
// it; all other bytes stay. Otherwise, a start past the end among it, there is no room, and every byte stays. Any eight
// numbers are written. The report of (2,1) with mode 1, one layer, i11 = 1, i2 = 1 and the rest 0 gives
// 02 01 01 01 01 00 00 01.
pub fn write(r: Report, out: &mut [u8], from: usize) -> Result<usize, NoRoom>
    ensures { WritesReport r from out.old result out.new }
{
    let values = eight::values_of(r);
    if !is_room(bytes_of(values), from, out.len()) {
        return Err(NoRoom { from });
    }
    let mut at = from;
    for n in values {
        at += put(n, &mut out[at..]);
    }
    Ok(at)
}
