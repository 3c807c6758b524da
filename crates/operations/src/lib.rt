//! The operations of the KA10: what an instruction is, what it is given, what it does, and how a word's code
//! says which one it is.

#![tactic(auto)]

mod decoding;
mod effect;
mod fields;
mod modes;
mod operation;
#[cfg(test)]
mod tests;

pub use decoding::decode;
pub use effect::{Effect, Inputs, Status, USER};
pub use fields::{accumulator, index, is_direct, opcode};
pub use operation::{Form, Instruction, MaskFrom, Mode, MoveMode, Operation, Shift};
