//! The allocator's machine: what a list of events comes to, and which events may come next.
//!
//! The machine has maps and no bits, rights, caches or stamps. It is here as definitions (`specs/`), which the contracts of the
//! crates above cite, as laws over every run (`laws`), and as a program that takes events one by one (`Machine`).
#![tactic(auto)]

mod asking;
pub mod fault;
pub mod laws;
mod looking;
pub mod machine;
mod places;
mod reasons;
mod stepping;

pub use fault::{Illegal, StepFault};
pub use machine::Machine;
