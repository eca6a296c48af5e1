//! The scavenger: pages that were empty for long enough go back to the system.
#![tactic(auto)]

mod examining;
mod judging;
pub mod laws;
mod passing;
mod putting;
mod taking;

pub use pas_profile::Outcome;
pub use passing::pass;
