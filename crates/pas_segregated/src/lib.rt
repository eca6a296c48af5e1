//! Exclusive pages: pages of one class, of which one actor at a time takes all free slots.
#![tactic(auto)]

pub mod laws;
mod refilling;
mod serving;
mod slots;
mod stopping;
mod taking;

pub use refilling::refill;
pub use slots::{Slots, covered, whole_slots};
pub use stopping::{stop, stop_on};
pub use taking::take_slots;
