//! Partial views: a few slots of one class on a page that several classes, and several actors, share.
#![tactic(auto)]

pub mod laws;
mod partial;
mod refilling;
mod stopping;

pub use partial::Partial;
pub use pas_segregated::Slots;
pub use refilling::refill;
pub use stopping::stop;
