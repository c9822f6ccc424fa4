// What C calls of crate aspenflick: each function answers as the one of its name there, and include/aspenflick.h says what. A
// crate is a library for C or one for other crates, and not both: so each stands twice.
#![tactic(auto)]

ghost use Rattle.std.specs.Prelude.{◌≡◌};
ghost use Rattle.ground.specs.Cases.{◌⇒◌∣◌};
ghost use Rattle.settings.specs.Settings.{is_setting, mask_bytes};
ghost use Rattle.plan.specs.Answer.{PhasesLeft, WeightsLeft};
ghost use Rattle.single.specs.Single.{single};
ghost use Rattle.multi.specs.Panels.{panels};
ghost use Rattle.logs.specs.Log.{step_at};
ghost use Rattle.aspenflick.specs.Version.{version};

// The version of the library.
#[unsafe(no_mangle)]
pub extern "C" fn aspenflick_version_3() -> u32
    ensures { result ≡ version }
{
    aspenflick::aspenflick_version_3()
}

// How many bytes the beam mask of a setting has.
#[unsafe(no_mangle)]
pub extern "C" fn aspenflick_mask_bytes_3(n1: u32, n2: u32) -> u32
    ensures { result ≡ (is_setting n1 n2 ⇒ mask_bytes n1 n2 ∣ 0) }
{
    aspenflick::aspenflick_mask_bytes_3(n1, n2)
}

// The phases of a report's precoder.
#[unsafe(no_mangle)]
pub extern "C" fn aspenflick_phases_3(
    r: report::Report,
    mask: &[u8],
    ranks: u8,
    offsets: &[turn::Part],
    out: &mut [turn::Part],
) -> plan::Record
    ensures { PhasesLeft single r mask.now ranks offsets.now out.old result out.new }
{
    aspenflick::aspenflick_phases_3(r, mask, ranks, offsets, out)
}

// The weights of a report's precoder.
#[unsafe(no_mangle)]
pub extern "C" fn aspenflick_weights_3(
    r: report::Report,
    mask: &[u8],
    ranks: u8,
    offsets: &[turn::Part],
    out: &mut [i16],
) -> plan::Record
    ensures { WeightsLeft single r mask.now ranks offsets.now out.old result out.new }
{
    aspenflick::aspenflick_weights_3(r, mask, ranks, offsets, out)
}

// The phases of a multi-panel report's precoder.
#[unsafe(no_mangle)]
pub extern "C" fn aspenflick_panel_phases_3(
    r: multi::PanelReport,
    mask: &[u8],
    ranks: u8,
    offsets: &[turn::Part],
    out: &mut [turn::Part],
) -> plan::Record
    ensures { PhasesLeft panels r mask.now ranks offsets.now out.old result out.new }
{
    aspenflick::aspenflick_panel_phases_3(r, mask, ranks, offsets, out)
}

// The weights of a multi-panel report's precoder.
#[unsafe(no_mangle)]
pub extern "C" fn aspenflick_panel_weights_3(
    r: multi::PanelReport,
    mask: &[u8],
    ranks: u8,
    offsets: &[turn::Part],
    out: &mut [i16],
) -> plan::Record
    ensures { WeightsLeft panels r mask.now ranks offsets.now out.old result out.new }
{
    aspenflick::aspenflick_panel_weights_3(r, mask, ranks, offsets, out)
}

// One step of a log of reports.
#[unsafe(no_mangle)]
pub extern "C" fn aspenflick_log_next_3(log: &[u8], from: usize) -> logs::LogStep
    ensures { result ≡ step_at log.now from }
{
    aspenflick::aspenflick_log_next_3(log, from)
}
