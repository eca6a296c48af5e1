//! A region that threads share: each of its words is changed by single atomic steps alone, and no call waits for another.
//!
//! Each actor has a pass. `SharedRegion::desk` seats it at the region, whoever else sits there, and `SharedDesk::into_pass` lets it
//! rise again. The words are always those after one legal list of steps whose part of each actor is that actor's own list.
#![tactic(auto)]

pub mod bench;
pub mod bench_desk;
pub mod closing;
pub mod desk;
mod exchange;
pub mod laws;
mod leaving;
pub mod ledger;
pub mod opening;
pub mod pass;
pub mod past;
pub mod past_laws;
pub mod region;
pub mod rule;
pub mod seating;
pub mod workers;

pub use bench::{Bench, Member};
pub use bench_desk::{BenchDesk, BenchHome};
pub use closing::{close, close_after, close_bench, close_settled};
pub use desk::SharedDesk;
pub use ledger::{Ledger, Rest};
pub use pass::SharedPass;
pub use past::Past;
pub use region::{Opening, SharedRegion};
pub use rule::Picks;
pub use seating::opened_with_room;
pub use workers::{Job, Worker, into_passes, seat_all};
