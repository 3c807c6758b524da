//! The packed layout, two 36-bit words in nine bytes: packing and unpacking whole lists, and the core
//! that lies in packed bytes.

#![tactic(auto)]

mod layout;
mod packed_core;
mod packing;

pub use packed_core::{BLOCK_BYTES, PackedCore};
pub use packing::{PackingError, pack, unpack};
