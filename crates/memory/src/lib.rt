//! Cores: memories of 36-bit words. The trait `Core` says what every core does; `PlainCore` is the one
//! over numbers of 64 bits.

#![tactic(auto)]

mod core_trait;
mod plain;

pub use core_trait::{BLOCK_WORDS, CORE_LIMIT, Core};
pub use plain::PlainCore;
