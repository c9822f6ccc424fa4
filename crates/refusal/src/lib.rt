// Why a report is refused, by number.
#![tactic(auto)]

// A refusal. Its number is what C is given and what a return names. It is no enum: `masks::admit` and `plan::Record::refused`
// promise an answer for any number.
#[derive(Clone, Copy, PartialEq, Eq)]
pub struct Refusal {
    pub number: u32,
}

impl Refusal {
    pub const NO_SETTING: Refusal = Refusal { number: 1 };

    pub const NO_MODE: Refusal = Refusal { number: 2 };

    pub const MASK_LENGTH: Refusal = Refusal { number: 3 };

    pub const NO_RANK: Refusal = Refusal { number: 4 };

    pub const RANK_BARRED: Refusal = Refusal { number: 5 };

    pub const I11_RANGE: Refusal = Refusal { number: 6 };

    pub const I12_RANGE: Refusal = Refusal { number: 7 };

    pub const I13_RANGE: Refusal = Refusal { number: 8 };

    pub const I14_RANGE: Refusal = Refusal { number: 12 };

    pub const I2_RANGE: Refusal = Refusal { number: 9 };

    pub const BEAM_BARRED: Refusal = Refusal { number: 10 };

    pub const OFFSETS_UNFIT: Refusal = Refusal { number: 13 };

    pub const NO_ROOM: Refusal = Refusal { number: 11 };
}
