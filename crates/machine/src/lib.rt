//! The machine of one program: references, effective addresses, executed words, steps and runs, over any core.

#![tactic(auto)]

mod address;
mod execute;
mod located;
mod next;
mod perform;
mod place;
mod reference;
mod space;
mod special;
mod stepping;
mod transfer;

pub use place::Place;
pub use space::Space;
pub use stepping::{Reply, run, step};
