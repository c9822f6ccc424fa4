// One line of text, read as a report.
#![tactic(auto)]

ghost use Rattle.line.specs.Form.{Reads};

use report::Report;

mod decimals;

// The bytes of the longest line that is read, with its newline.
pub const LONGEST_LINE: usize = 256;

// Reads a line: N1 N2 mode v i11 i12 i13 i2, decimals of 1 to 5 digits, at most 65535, one space between them and a
// newline at the end. Anything else is unreadable, and gives None: a line without its newline, a byte after it, a sign, a
// second space. `2 1 1 2 7 0 1 0` and a newline is the report of (2,1) with mode 1, two layers, i11 = 7, i13 = 1 and the
// rest 0.
pub fn read(line: &[u8]) -> Option<Report>
    ensures { Reads line.now result }
{
    if line.len() > LONGEST_LINE {
        return None;
    }
    let mut values = [0; 8];
    let mut rest = line;
    for (j, value) in values.iter_mut().enumerate() {
        let n = decimals::next(rest, 7 - j)?;
        *value = n.value;
        rest = n.rest;
    }
    if !rest.is_empty() {
        return None;
    }
    Some(eight::report_of(values))
}
