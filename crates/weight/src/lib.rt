// The weight of one port in one layer. Its table is a definition (specs/Table.antt); crate `lookup` has it in code.
#![tactic(auto)]

// A weight: real part x and imaginary part y.
#[derive(Clone, Copy)]
pub struct Weight {
    pub x: i16,
    pub y: i16,
}
