//! The cache of a thread: the slots that it took and hasn't given yet, and the names that it freed and whose blocks it hasn't ended yet.
#![tactic(auto)]

mod cache;
mod freeing;
mod giving;
mod giving_up;
mod large;
pub mod laws;
mod moving;
mod obtaining;
mod refilling;
mod serving;
mod stopping;
mod taking;

pub use cache::ThreadCache;
pub use moving::Moved;
