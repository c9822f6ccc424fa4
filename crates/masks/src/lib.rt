// The refusals that every codebook shares: the masks, the offsets, and the room in the lent buffer.
#![tactic(auto)]

ghost use Rattle.std.specs.Prelude.{◌≡◌, ◌+◌, ◌*◌};
ghost use Rattle.plan.specs.Masks.{is_zero, barred, rank_barred};
ghost use Rattle.masks.specs.Admitted.{bits_of, before_bits, admitted};

use plan::Site;
use refusal::Refusal;
use turn::Beam;

// What a report asks for: the first of its codebook's own refusals that applies; the bytes of the beam mask; its layers; its
// ports P and the entries v·P of its precoder; and the beams that the mask is asked for, with how many bits it has for each l.
// Ports, entries and beams count where `own` is Ok alone; they stand beside it, since the bytes and v are asked of a refused
// report too (specs/Asks.antt).
#[derive(Clone, Copy)]
pub struct Needs<'a> {
    pub own: Result<(), Refusal>,
    pub bytes: u32,
    pub v: u32,
    pub ports: u32,
    pub entries: u32,
    pub width: u32,
    pub beams: &'a [Beam],
}

// Whether the bit of a beam is zero; past the end of a mask there are zeros.
#[tactic(auto, unfolding(plan::specs::Masks::is_zero, plan::specs::Masks::bit))]
fn is_zero(mask: &[u8], width: u32, x: Beam) -> bool
    ensures { result ≡ is_zero mask.now (width * x.l + x.m) }
{
    let k = width as u64 * x.l as u64 + x.m as u64;
    mask.get((k / 8) as usize)
        .is_none_or(|byte| (*byte >> (k % 8) as u32) % 2 == 0)
}

// Whether one of the bits of these beams is zero.
fn is_barred(mask: &[u8], width: u32, beams: &[Beam]) -> bool
    ensures { result ≡ barred mask.now (bits_of width beams.now) }
{
    beams.iter().any(|x| is_zero(mask, width, *x))
}

// Whether the bit of v layers is zero.
#[tactic(auto, unfolding(plan::specs::Masks::rank_barred))]
fn rank_barred(ranks: u8, v: u32) -> bool
    ensures { result ≡ rank_barred ranks v }
{
    ranks
        .checked_shr(v.saturating_sub(1))
        .is_none_or(|bits| bits % 2 == 0)
}

// The first of 1 to 5 and of the codebook's own refusals that applies, by the bytes of the beam mask and the rank mask.
#[tactic(auto, unfolding(crate::specs::Admitted::before_bits))]
fn before_bits(x: Needs, bytes: usize, ranks: u8) -> Result<(), Refusal>
    ensures { result ≡ before_bits x.entry bytes ranks }
{
    if x.own == Err(Refusal::NO_SETTING) || x.own == Err(Refusal::NO_MODE) {
        return x.own;
    }
    if bytes != x.bytes as usize {
        return Err(Refusal::MASK_LENGTH);
    }
    if x.own == Err(Refusal::NO_RANK) {
        return x.own;
    }
    if rank_barred(ranks, x.v) {
        return Err(Refusal::RANK_BARRED);
    }
    x.own
}

// The first refusal that applies to a report: 3 where the beam mask has not the bytes needed, 5 where the rank is barred, 10
// where a bit that is read is zero, 13 where the offsets are not one for each port, each below a turn, and 11 where there is
// no room for its entries, among the codebook's own.
#[tactic(auto, unfolding(crate::specs::Admitted::admitted))]
pub fn admit(x: Needs, site: Site, room: usize) -> Result<(), Refusal>
    ensures { let s = site.entry in result ≡ admitted x.entry s.mask.now s.ranks s.offsets.now room }
{
    before_bits(x, site.mask.len(), site.ranks)?;
    if is_barred(site.mask, x.width, x.beams) {
        return Err(Refusal::BEAM_BARRED);
    }
    if offsets::is_unfit(x.ports, site.offsets) {
        return Err(Refusal::OFFSETS_UNFIT);
    }
    if room < x.entries as usize {
        return Err(Refusal::NO_ROOM);
    }
    Ok(())
}
