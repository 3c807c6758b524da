//! Halves, Boolean functions, half-word moves and test modifications of the PDP-10 (KA10) on 36-bit words.
//!
//! Every function takes any `u64` and works on its low 36 bits; every word that it gives is below 2^36. A word is a plain
//! number and no type with that bound, since such a parameter would ask callers for what no function here needs.

#![tactic(auto)]

mod booleans;
mod half_words;
mod halves;
mod masks;

pub use booleans::boolean;
pub use half_words::{Half, HalfMove, Other, move_half};
pub use halves::{from_halves, left, right, swap};
pub use masks::{Change, SkipWhen, changed, skips};

#[cfg(test)]
mod tests;
