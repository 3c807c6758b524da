//! Why a run of a program ends, and the state that its place is in then.

#![tactic(auto)]

mod state;
mod stop;

pub use state::State;
pub use stop::Stop;
