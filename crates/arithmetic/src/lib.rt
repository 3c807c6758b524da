//! The arithmetic of the PDP-10 (KA10) on words of 36 bits: sums with their carries, the flags that the carries raise,
//! signed comparison, and division. Each function takes the low 36 bits of the numbers that it is given.

#![tactic(auto)]

mod condition;
mod division;
mod flags;
mod signed;
mod sums;
#[cfg(test)]
mod tests;

pub use condition::{Condition, holds};
pub use division::{Division, divide};
pub use flags::{CARRY_0, CARRY_1, OVERFLOW, flags_after, raise};
pub use sums::{add, decrement, increment, negate, subtract};
