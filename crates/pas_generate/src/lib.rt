//! Traces that are made by a small generator of random numbers: large jobs that are the same each time, and are read
//! without a fault. The generator draws from a linear congruential sequence. Half of its operations allocate, and the
//! others free one of the blocks that are left; every thousandth makes a pass and begins a phase, and the one before it
//! ticks.
#![tactic(auto)]

mod draws;
mod generator;
pub mod laws;
mod lines;
mod operation;
mod requests;
pub mod trace;

pub use trace::trace_of;
