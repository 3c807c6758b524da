//! Cores made of two cores: one after the other, or word by word in turn. The parts may be of any makes.
//! Each of the two is a type of its own, since nothing but the pair of parts is the same in both.

#![tactic(auto)]

mod interleaved;
mod joined;

pub use interleaved::Interleaved;
pub use joined::Joined;
