//! What answers the operations and acts of a plan, over any desk: the steps and records of one operation, of a tick and
//! of a pass, and what a replay of all of them is.
//!
//! Reallocation: a block gets another size, where it stands or elsewhere.
#![tactic(auto)]

mod answering;
mod guarding;
mod idle;
pub mod laws;
mod moving;
pub mod names;
mod passing;
mod remaking;
mod ticking;

pub use answering::{answer_meant, answer_stop};
pub use guarding::{lower_all, try_guarded};
pub use idle::is_idle_for;
pub use moving::reallocate;
pub use passing::pass;
pub use remaking::Remake;
pub use ticking::tick;
