// The decimals of a line.
ghost use Rattle.std.specs.Prelude.{◌≡◌, ◌≤◌, true, false, take, length, MatchOption};
ghost use Rattle.std.specs.List.{prefix_len};
ghost use Rattle.std.specs.Char.{is_ascii_digit};
ghost use Rattle.ground.specs.Lists.{each};
ghost use Rattle.line.specs.Form.{is_digit, value};
ghost use Rattle.line.specs.Scan.{is_ended, Leads};

// A number that was read, and the text after what follows it.
#[derive(Clone, Copy)]
pub struct Number<'a> {
    pub value: u32,
    pub rest: &'a [u8],
}

// The most digits that a decimal has.
const MOST_DIGITS: usize = 5;

// The largest number of a line.
const LARGEST: u32 = 65535;

// How many digits stand at the front of a text, of five at most.
fn leading(line: &[u8]) -> usize
    ensures { result ≡ prefix_len is_ascii_digit (take 5 line.now) }
{
    line.iter()
        .take(MOST_DIGITS)
        .take_while(|b| b.is_ascii_digit())
        .count()
}

// The number of five digits at most.
fn value(word: &[u8]) -> u32
    requires digits { each is_digit word.now ≡ true }
    requires few { length word.now ≤ 5 }
    ensures { result ≡ value word.now }
{
    let mut n = 0;
    for b in word {
        n = 10 * n + (*b - b'0') as u32;
    }
    n
}

// The decimal at the front of a text, where it is followed by what ends a word after which so many are left.
pub fn next<'a>(line: &'a [u8], left: usize) -> Option<Number<'a>>
    ensures { MatchOption result (is_ended line.now left ≡ false) (λ n. Leads line.now left n.value n.rest.now) }
{
    let (word, after) = line.split_at(leading(line));
    let value = value(word);
    let (end, rest) = after.split_first()?;
    if word.is_empty() || value > LARGEST || *end != text::ending(left) {
        return None;
    }
    Some(Number { value, rest })
}
