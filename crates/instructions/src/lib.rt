//! What every ordinary instruction of the KA10 does, as a function of what it is given.

#![tactic(auto)]

mod bit_tests;
mod booleans;
mod calls;
mod compares;
mod division;
mod effects;
mod half_words;
mod jumps;
mod moves;
mod operands;
mod pointers;
mod pushdown;
mod results;
mod shifting;
mod subroutines;
mod sums;

pub use effects::effect_of;
pub use operands::operand_address;
