//! Guarded large blocks: whole pages between two pages that are never backed while the guard is up.
#![tactic(auto)]

mod book;
mod guarding;
pub mod laws;
mod looking;
mod lowering;
mod passing;
mod raising;
mod seeking;
mod sweeping;

pub use book::GuardBook;
