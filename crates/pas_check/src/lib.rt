//! The checker of transcripts: whether a transcript in the order of the text answers a plan, and the first line that doesn't.
#![tactic(auto)]

mod acting;
mod awake;
mod checking;
mod cutting;
mod emptying;
mod examining;
mod following;
mod guarding;
pub mod laws;
mod logging;
mod naming;
mod numbers;
pub mod reading;
mod reporting;
mod requesting;
mod serving;
mod splitting;
mod taking;
pub mod verdict;
pub mod whole;

pub use reading::read_record;
pub use splitting::{Parts, split};
pub use verdict::Verdict;
pub use whole::check;
