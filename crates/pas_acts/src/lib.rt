//! What the acts of a plan are and cost, what every kit of a plan is made of, what one actor of a replay does for its
//! acts, at any desk, and what workers that each answer their own acts of a phase did together.
#![tactic(auto)]

pub mod at_desk;
pub mod awake;
pub mod gate;
pub mod keepers;
pub mod laws;
pub mod limits;
pub mod names;
pub mod own;
pub mod parts;
pub mod plan_keepers;
pub mod turns;

pub use awake::{active, active_in};
pub use gate::{Gate, OpenGate};
pub use limits::records_for;
pub use parts::{caches_for, outcomes_from, rooms_of};
pub use plan_keepers::{books_by, books_for, keepers_of, region_by, region_of};
