//! What the words of a call ask for, and how what an input comes to is written.
#![tactic(auto)]

pub mod job;
pub mod manner;
mod outcome;
mod settling;
mod summary;
mod telling;
pub mod words;

pub use job::Job;
pub use manner::Manner;
pub use outcome::Outcome;
pub use summary::{Summary, summary_of};
pub use telling::{fault_line, tell, tell_outcome};
pub use words::{Call, Misread, call_of};
