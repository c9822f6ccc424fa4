// Aspenflick for C: the precoder of a 5G NR Type I PMI report of TS 38.214, single-panel (5.2.2.2.1) or multi-panel
// (5.2.2.2.2), or its refusal; and a reader of logs of such reports.
//
// A call answers any numbers, masks, offsets and lengths. It allocates nothing, takes less than 2,048 bytes of stack
// (measured, not proved) and keeps no state, so several threads may call at once, each with an `out` of its own. A struct
// goes by value. A slice is a pointer to entries and then their number: the pointer must not be null and must be aligned
// for them, also where there are none, and `out` must not overlap `mask` or `offsets`. Nothing else of the caller's is read
// or written. The answer to a report is determined by the report, both masks, the offsets, the length of `out`, which
// function is called, and the version of the library: whoever files answers keeps these.
//
// One panel: the settings (n1,n2) are (1,1), called two ports, (2,1), (2,2), (4,1), (3,2), (6,1), (4,2), (8,1), (4,3),
// (6,2), (12,1), (4,4), (8,2) and (16,1). P is the number of ports, 2·n1·n2. M stands for the beams of the second
// direction: 1 if n2 = 1 and 4·n2 otherwise.
//
// How many values each index has, from 0 on. One that the rank or the setting has no use for has one value, so that it
// must be 0.
//
//                                 i11       i12       i13       i2
//     two ports     v = 1         1         1         1         4
//                   v = 2         1         1         1         2
//     mode 1        v = 1         4·n1      M         1         4
//                   v = 2         4·n1      M         4 (a)     2
//     mode 2        v = 1         2·n1      M/2 (b)   1         16
//                   v = 2         2·n1      M/2 (b)   4 (a)     8
//     either mode   v = 3, 4      4·n1      M         (c)       2      P below 16
//                   v = 3, 4      2·n1      M         4         2      P of 16 or more
//                   v = 5, 6      4·n1      M         1         2
//                   v = 7, 8      4·n1 (d)  M (e)     1         2
//
//     (a) 2 at (2,1)   (b) 1 if n2 = 1   (c) 1 at (2,1), 3 at (4,1) and (2,2), 4 at (6,1) and (3,2)   (d) 8 at (4,1)
//     (e) 4 at (3,2), (4,2), (6,2) and (8,2)
//
// Several panels: the settings (ng,n1,n2) are (2,2,1), (2,4,1), (4,2,1), (2,2,2), (2,8,1), (4,4,1), (2,4,2) and (4,2,2).
// P is 2·ng·n1·n2; n1, n2 and M are those of one panel. There are one to four layers, and mode 2 is for two panels only.
// Three numbers of i14 and of i2 are always given, and again one without use must be 0. How many values each has:
//
//                 i11     i12     i13       i2 in mode 1    i2 in mode 2
//     v = 1       4·n1    M       1         4 1 1           4 2 2
//     v = 2       4·n1    M       4 (a)     2 1 1           2 2 2
//     v = 3, 4    4·n1    M       (f)       2 1 1           2 2 2
//
//     (f) 1 at (2,1), 3 at (4,1) and (2,2), 4 at (8,1) and (4,2)
//     i14: 4 1 1 with two panels in mode 1, 4 4 1 with two panels in mode 2, 4 4 4 with four panels
//
// Bit k of a mask is bit k mod 8, from the lowest, of byte k / 8. A zero bit bars. `ranks` has bit v-1 for v layers.
// `mask` has 4·n1·M bits, bit l·M + m for the beam (l,m), l modulo 4·n1 and m modulo M; for several panels it is the mask
// of one of them. Two ports have one byte: bits 0 to 3 for i2 with one layer, bits 4 and 5 for i2 with two. Three and four
// layers of one panel with 16 ports or more have half-length beams, for which three bits are read, those of
// (2·i11 - 1, i12), (2·i11, i12) and (2·i11 + 1, i12); at i11 = 0 the first is that of (4·n1 - 1, i12). One zero among them
// bars the report. Several panels have no half-length beams.
//
// The record of an accepted report names the beam of each layer, with l below 4·n1 and m below M: its bit of `mask` is one.
// Layers that have one beam repeat it; a half-length beam is named (2·i11, i12), the middle one of its three; in a layer of
// several panels, which all have one beam, that is named once. Places from v on are (0,0), which is a beam too: they say
// nothing. Two ports have no beams, and all places are (0,0).
//
// Phases are whole numbers of 1/384 turns, 0 to 383. `offsets` has one for each of the P ports, in the order of the ports:
// it is added to the port's phase in every layer, modulo a turn. Zeros leave the precoder as the standard prints it.
#![tactic(auto)]

// C calls no generic function: each of the four that write entries is `precoder::entries` of one codebook and one kind of number.
ghost use Rattle.std.specs.Prelude.{◌≡◌};
ghost use Rattle.ground.specs.Cases.{◌⇒◌∣◌};
ghost use Rattle.settings.specs.Settings.{is_setting, mask_bytes};
ghost use Rattle.plan.specs.Answer.{PhasesLeft, WeightsLeft};
ghost use Rattle.single.specs.Single.{single};
ghost use Rattle.multi.specs.Panels.{panels};
ghost use Rattle.logs.specs.Log.{step_at};
ghost use Rattle.aspenflick.specs.Version.{version};

// The version of the library. A struct, a parameter or a constant that changes makes the first number another, and every
// function is linked by a name that ends with it: a program compiled with a header of another major number does not link.
pub const VERSION_MAJOR: u32 = 3;

pub const VERSION_MINOR: u32 = 0;

pub const VERSION_PATCH: u32 = 0;

// The largest sizes: ports, layers, numbers in `out` for phases and for weights, bytes of `mask`.
pub const MOST_PORTS: u32 = 32;

pub const MOST_LAYERS: u32 = 8;

pub const MOST_PHASES: u32 = 256;

pub const MOST_WEIGHTS: u32 = 512;

pub const MOST_MASK_BYTES: u32 = 32;

// The refusals, in the order in which they are tried. The first that applies is given; the record's other numbers, those
// of its beams among them, are then 0 and `out` stays as lent.
// none applies
pub const ACCEPTED: u32 = 0;

// (n1,n2), or (ng,n1,n2), is not a setting
pub const NO_SETTING: u32 = 1;

// mode is neither 1 nor 2, or is 2 with four panels
pub const NO_MODE: u32 = 2;

// `mask` has not exactly the bytes needed
pub const MASK_LENGTH: u32 = 3;

// v is 0, above 8 or above P; for panels, above 4
pub const NO_RANK: u32 = 4;

// bit v-1 of `ranks` is zero
pub const RANK_BARRED: u32 = 5;

// i11 is out of range
pub const I11_RANGE: u32 = 6;

// i12 is out of range
pub const I12_RANGE: u32 = 7;

// i13 is out of range
pub const I13_RANGE: u32 = 8;

// a number of i14 is out of range
pub const I14_RANGE: u32 = 12;

// i2, or a number of it, is out of range
pub const I2_RANGE: u32 = 9;

// a bit of `mask` that the report reads is zero
pub const BEAM_BARRED: u32 = 10;

// `offsets` are not exactly P, or one of them is above 383
pub const OFFSETS_UNFIT: u32 = 13;

// `out` is too short: v·P numbers are needed, or 2·v·P for weights
pub const NO_ROOM: u32 = 11;

// What a step of a log is.
// a report
pub const LOG_REPORT: u32 = 0;

// the end, which stands between reports only
pub const LOG_END: u32 = 1;

// a fault: nothing behind it is read
pub const LOG_FAULT: u32 = 2;

// The faults of a log, of which the first in the order of the bytes is given.
// it ends inside a report; the place is its length
pub const FAULT_ENDS: u32 = 1;

// a number of several bytes whose last byte is zero; the place is that byte's
pub const FAULT_PADDED: u32 = 2;

// a number's fifth byte is above 15; the place is that byte's
pub const FAULT_LARGE: u32 = 3;

// The version of the library that is linked: 10000·major + 100·minor + patch, as in ASPENFLICK_VERSION.
#[unsafe(no_mangle)]
pub extern "C" fn aspenflick_version_3() -> u32
    ensures { result ≡ version }
{
    10000 * VERSION_MAJOR + 100 * VERSION_MINOR + VERSION_PATCH
}

// How many bytes the beam mask of a setting has; 0 for a pair that is no setting. Panels have the mask of one of them.
#[unsafe(no_mangle)]
pub extern "C" fn aspenflick_mask_bytes_3(n1: u32, n2: u32) -> u32
    ensures { result ≡ (is_setting n1 n2 ⇒ mask_bytes n1 n2 ∣ 0) }
{
    settings::mask_bytes(n1, n2)
}

// Writes the phases of a report's precoder: layer after layer, each of P entries, the first polarisation first, to each
// the offset of its port added. `out_len` counts 16-bit numbers, and so does `offsets_len`. Entries past the v·P of the
// answer stay as lent. (2,1) with mode 1, v = 1, i11 = 1, i2 = 1 and the rest 0 gives 0 48 96 144 with the offsets
// 0 0 0 0, and 1 50 99 148 with 1 2 3 4; it names the beam (1,0).
#[unsafe(no_mangle)]
pub extern "C" fn aspenflick_phases_3(
    r: report::Report,
    mask: &[u8],
    ranks: u8,
    offsets: &[turn::Part],
    out: &mut [turn::Part],
) -> plan::Record
    ensures { PhasesLeft single r mask.now ranks offsets.now out.old result out.new }
{
    let site = plan::Site {
        mask,
        ranks,
        offsets,
    };
    precoder::entries(r, site, out)
}

// Writes the weights of a report's precoder: for each entry that `aspenflick_phases` writes, x and then y, the whole
// numbers nearest to 16384 times the cosine and the sine of its phase; a true precoder is divided by 16384 too. `out_len`
// counts 16-bit numbers. Numbers past the 2·v·P of the answer stay as lent. The report above with
// the offsets 0 0 0 0 gives 16384 0 11585 11585 0 16384 -11585 11585.
#[unsafe(no_mangle)]
pub extern "C" fn aspenflick_weights_3(
    r: report::Report,
    mask: &[u8],
    ranks: u8,
    offsets: &[turn::Part],
    out: &mut [i16],
) -> plan::Record
    ensures { WeightsLeft single r mask.now ranks offsets.now out.old result out.new }
{
    let site = plan::Site {
        mask,
        ranks,
        offsets,
    };
    precoder::entries(r, site, out)
}

// Writes the phases of a multi-panel report's precoder as `aspenflick_phases` does: layer after layer, each of P entries,
// panel by panel, the first polarisation of a panel first. (2,2,1) with mode 1, v = 1, i11 = 1, i14 = 1 0 0, i2 = 2 0 0
// and the rest 0 gives 0 48 192 240 96 144 288 336 with the offsets 0 0 0 0 0 0 0 0.
#[unsafe(no_mangle)]
pub extern "C" fn aspenflick_panel_phases_3(
    r: multi::PanelReport,
    mask: &[u8],
    ranks: u8,
    offsets: &[turn::Part],
    out: &mut [turn::Part],
) -> plan::Record
    ensures { PhasesLeft panels r mask.now ranks offsets.now out.old result out.new }
{
    let site = plan::Site {
        mask,
        ranks,
        offsets,
    };
    precoder::entries(r, site, out)
}

// Writes the weights of a multi-panel report's precoder: for each entry that `aspenflick_panel_phases` writes, x and then y,
// as `aspenflick_weights` does.
#[unsafe(no_mangle)]
pub extern "C" fn aspenflick_panel_weights_3(
    r: multi::PanelReport,
    mask: &[u8],
    ranks: u8,
    offsets: &[turn::Part],
    out: &mut [i16],
) -> plan::Record
    ensures { WeightsLeft panels r mask.now ranks offsets.now out.old result out.new }
{
    let site = plan::Site {
        mask,
        ranks,
        offsets,
    };
    precoder::entries(r, site, out)
}

// Reads one step of a log of reports: what stands at the place `from`, which is the front, 0, or the `next` of the step
// before. A log is a plain run of numbers, eight to a report: n1, n2, mode, v, i11, i12, i13, i2. A number is written in
// groups of seven bits, lowest group first, a byte each, the top bit set when another byte follows; in the fewest bytes, of
// which there are at most five, for 32 bits. The numbers are not judged: that is for `aspenflick_phases`. A place past the
// end of the log gives the end. (2,1) with mode 1, v = 1, i11 = 1, i2 = 1 and the rest 0 is 02 01 01 01 01 00 00 01; the
// number 200 is C8 01.
#[unsafe(no_mangle)]
pub extern "C" fn aspenflick_log_next_3(log: &[u8], from: usize) -> logs::LogStep
    ensures { result ≡ step_at log.now from }
{
    logs::step_at(log, from)
}
