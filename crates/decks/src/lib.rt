//! Decks: suppliers' programs as text, octal words by address, and how they are put into a core.

#![tactic(auto)]

mod beginning;
mod blocks;
mod fault;
mod octal;
mod reader;
mod reading;
mod signs;
mod storing;
#[cfg(test)]
mod tests;

pub use beginning::accumulators;
pub use blocks::blocks_for;
pub use fault::{DeckError, DeckFault};
pub use octal::octal_digits;
pub use reading::read_deck;
pub use storing::{count_equal, store};
