// The refusals of the indices.
ghost use Rattle.std.specs.Prelude.{◌≡◌, leb};
ghost use Rattle.ground.specs.Cases.{◌⇒◌∣◌};
ghost use Rattle.refusal.specs.Outcome.{outcome};

use crate::Report;
use refusal::Refusal;
use settings::Ranges;

// The first of 6 to 9 that applies: an index has its values from 0 on.
pub fn indices(r: Report, w: Ranges) -> Result<(), Refusal>
    ensures { result ≡ outcome (
        leb w.i11 r.i11 ⇒ 6 ∣ leb w.i12 r.i12 ⇒ 7 ∣ leb w.i13 r.i13 ⇒ 8 ∣ leb w.i2 r.i2 ⇒ 9 ∣ 0
        ) }
{
    if w.i11 <= r.i11 {
        return Err(Refusal::I11_RANGE);
    }
    if w.i12 <= r.i12 {
        return Err(Refusal::I12_RANGE);
    }
    if w.i13 <= r.i13 {
        return Err(Refusal::I13_RANGE);
    }
    if w.i2 <= r.i2 {
        return Err(Refusal::I2_RANGE);
    }
    Ok(())
}
