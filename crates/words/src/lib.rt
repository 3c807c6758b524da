//! The 36-bit word of the PDP-10, and the refusals that every layer above shares.

#![tactic(auto)]

mod refusal;
mod word;

pub use refusal::Refusal;
pub use word::{HALF_LIMIT, SIGN_BIT, WORD_LIMIT, all_words, check_word, complement, is_negative};
