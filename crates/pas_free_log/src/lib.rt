//! The deallocation log of a thread's cache: names that were freed, and the flush that ends their blocks.
#![tactic(auto)]

mod ending;
mod flushing;
mod log;
mod noting;
mod returning;

pub use ending::may_end;
pub use flushing::{end_one, flush};
pub use log::FreeLog;
pub use noting::EndedRun;
