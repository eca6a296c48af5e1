//! The replay of a plan on threads, over a region that they share.
#![tactic(auto)]

mod ahead;
mod crew;
mod dealing;
mod estimate;
mod hands;
mod keeper;
pub mod kit;
mod lending;
mod making;
mod phases;
mod scavenger;
mod settling;
mod turns;
mod whole;
mod workers;

pub use ahead::Ahead;
pub use estimate::Estimate;
pub use kit::SharedKit;
pub use pas_acts::{Gate, OpenGate};
pub use pas_answers::Remake;
pub use whole::{Rooms, on_threads, on_threads_with_rooms};
