// The lines of a listing of a log: reports, and what stands last.
#![tactic(auto)]

ghost use Rattle.std.specs.Prelude.{true};
ghost use Rattle.ground.specs.Lent.{Writes};
ghost use Rattle.text.specs.Words.{line_of};
ghost use Rattle.listing.specs.Listing.{end_text, TellsEnd, fault_text};

// The bytes of the longest line: eight numbers, each of ten digits and what follows it. A buffer of so many has room for
// every line.
pub const LONGEST_LINE: usize = 8 * 11;

// Writes eight numbers as a line, in decimals without leading zeros, one space between, newline at the end. The text stands
// at the front of the lent buffer, bytes after it stay, and the number of its bytes is given. Where fewer are lent, None is
// given and every byte stays. The numbers of the report of the example give `2 1 1 2 7 0 1 0`.
pub fn numbers(xs: [u32; 8], out: &mut [u8]) -> Option<usize>
    ensures { Writes true (line_of xs) out.old result out.new }
{
    let mut line = [0; LONGEST_LINE];
    // The first k bytes are written. `Text` of crate text asks for room, so that it is not public.
    let mut k = 0;
    for (i, x) in xs.iter().enumerate() {
        k += text::number(*x as u64, 7 - i, &mut line[k..])?;
    }
    text::put(&line[..k], out)
}

// Writes the line after the last report: `end` and a newline. Gives the number of its bytes; where fewer are lent, None is
// given and every byte stays.
pub fn end(out: &mut [u8]) -> Option<usize>
    ensures { Writes true end_text out.old result out.new }
{
    text::put(b"end\n", out)
}

// Whether a line is the one after the last report: `end` and a newline, and nothing else.
pub fn is_end(line: &[u8]) -> bool
    ensures { TellsEnd line.now result }
{
    line == b"end\n".as_slice()
}

// Writes the line of a fault, its number and its place: number 2 at place 17 gives `fault 2 at 17` and a newline. Gives the
// number of its bytes; where fewer are lent, None is given and every byte stays.
pub fn fault(number: u32, place: u64, out: &mut [u8]) -> Option<usize>
    ensures { Writes true (fault_text number place) out.old result out.new }
{
    let mut line = [0; LONGEST_LINE];
    let mut k = text::put(b"fault ", &mut line)?;
    k += text::number(number as u64, 2, &mut line[k..])?;
    k += text::put(b"at ", &mut line[k..])?;
    k += text::number(place, 0, &mut line[k..])?;
    text::put(&line[..k], out)
}
