// Phases, counted in parts of a turn and always reduced modulo a turn; and beams by their numbers.
#![tactic(auto)]

ghost use Rattle.std.specs.Prelude.{◌≡◌, ◌+◌, ◌*◌};
ghost use Rattle.turn.specs.Phase.{quarter, eighth, phase};

use std::ops::Add;

// A number of parts of a turn. Another resolution may need more bits, and nothing else here.
pub type Part = u16;

// The parts of a full turn.
pub const TURN: Part = 384;

// The beam (l,m), or a step from one beam to another.
#[repr(C)]
#[derive(Clone, Copy)]
pub struct Beam {
    pub l: u32,
    pub m: u32,
}

// A phase. Functions that give one give it below a full turn; those that take one take any number of parts.
#[derive(Clone, Copy)]
pub struct Phase {
    pub parts: Part,
}

// A whole number of parts as a phase: `Phase::from(400)` has 16 parts.
impl From<u32> for Phase {
    ghost from_gives = { λ number result. result.parts ≡ phase number };

    fn from(number: u32) -> Phase {
        Phase {
            parts: (number % (TURN as u32)) as Part,
        }
    }
}

// The sum of two phases, without a wider number.
impl Add for Phase {
    type Output = Phase;

    ghost add_gives = { λ one other result. result.parts ≡ phase (one.parts + other.parts) };

    fn add(self, other: Phase) -> Phase {
        let x = self.parts % TURN;
        let y = other.parts % TURN;
        let rest = TURN - y;
        if x < rest {
            return Phase { parts: x + y };
        }
        Phase { parts: x - rest }
    }
}

impl Phase {
    // Of 384 parts, a quarter has 96 and an eighth 48.
    pub const QUARTER: Phase = Phase { parts: TURN / 4 };

    pub const EIGHTH: Phase = Phase { parts: TURN / 8 };

    // f(n): n quarters of a turn.
    pub fn quarters(n: u32) -> Phase
        ensures { result.parts ≡ phase (n * quarter) }
    {
        Phase::from((n % 4) * (Phase::QUARTER.parts as u32))
    }

    // t(p): p eighths of a turn.
    pub fn eighths(p: u32) -> Phase
        ensures { result.parts ≡ phase (p * eighth) }
    {
        Phase::from((p % 8) * (Phase::EIGHTH.parts as u32))
    }
}
