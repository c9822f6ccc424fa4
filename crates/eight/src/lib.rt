// A report as eight numbers, in the order in which lines and logs have them. They are functions and no `From`: a report and
// an array are types of other crates.
#![tactic(auto)]

ghost use Rattle.std.specs.Prelude.{◌≡◌};
ghost use Rattle.eight.specs.Numbers.{values_of, report_of};

use report::Report;

// The report of eight numbers: N1 N2 mode v i11 i12 i13 i2.
pub fn report_of(numbers: [u32; 8]) -> Report
    ensures { result ≡ report_of numbers }
{
    Report {
        n1: numbers[0],
        n2: numbers[1],
        mode: numbers[2],
        v: numbers[3],
        i11: numbers[4],
        i12: numbers[5],
        i13: numbers[6],
        i2: numbers[7],
    }
}

// The eight numbers of a report.
pub fn values_of(r: Report) -> [u32; 8]
    ensures { result ≡ values_of r }
{
    [r.n1, r.n2, r.mode, r.v, r.i11, r.i12, r.i13, r.i2]
}
