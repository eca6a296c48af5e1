//! What actors do at one region, so that tests can see what the calls come to.
//!
//! Sessions: one or two actors sit at a plain region after each other. Storms: an actor goes on an errand at a plain
//! region, and before chosen ones of its steps an intruder goes on an errand for another actor; when all is quiet
//! again, a judge looks at the words of the region and at the events of both. Threads: they work at one shared region at
//! once, and two of them hand blocks to each other by channels.
#![tactic(auto)]

pub mod caching;
mod errands;
pub mod filling;
mod guests;
pub mod handing;
pub mod holding;
mod judging;
pub mod laws;
pub mod paging;
pub mod passing;
pub mod racing;
pub mod seats;
pub mod shared_storm;
pub mod sharing;
pub mod sizing;
pub mod storming;
mod trading;
pub mod wanting;
mod watching;
pub mod workers;

pub use caching::{borrow_two, words_of_first};
pub use errands::{Errand, Hands};
pub use filling::{Filled, fill};
pub use guests::{Guest, Moment, Visit};
pub use handing::{Gift, Handed, hand_over};
pub use holding::{occupy, visit};
pub use judging::{Fault, judge};
pub use paging::reuse_pages;
pub use passing::age_and_pass;
pub use racing::{Answer, RefillFirst, race, workers_of};
pub use seats::{change, close_both};
pub use shared_storm::Storm;
pub use sharing::{Allocated, allocate, fill_shared};
pub use sizing::{borrow_and_end, end_by_rooms};
pub use storming::{Borrower, Flusher, borrow_many};
pub use trading::{Traded, trade_blocks};
pub use wanting::{Findings, ask, want};
pub use watching::{MOST_WATCHED, Watched};
pub use workers::{StormWork, Total, gather, run_storm, storm_workers};
