//! One user program of the PDP-10 (KA10 processor) run by bytes, for callers in C.

#![tactic(auto)]

mod admission;
mod block;
mod call;
mod numbers;
mod program;
mod records;

pub use call::ka10_run;
