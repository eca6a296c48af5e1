//! A region whose pages get their words in memory as they are written, and the desk of an actor that works at it alone.
//!
//! The actors take turns: `PlainRegion::desk` seats one at the region, and `PlainDesk::into_parts` lets it rise again. Since no
//! other desk runs beside it, a plain desk tells the whole state.
#![tactic(auto)]

pub mod closed;
pub mod desk;
mod near;
pub mod pass;
pub mod region;
pub mod seating;
pub mod session;
mod short;
pub mod storm;

pub use closed::Closed;
pub use desk::PlainDesk;
pub use pass::PlainPass;
pub use region::PlainRegion;
pub use seating::{alone, beside};
pub use session::close;
pub use storm::{Intruder, StormDesk};
