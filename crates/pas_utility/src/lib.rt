//! Fixed pools that are made once, when a region is opened: the room for each actor's events, a seat for each thread's cache, and a list for
//! the outcomes of a scavenger's pass.
//!
//! Each part is handed out once. Handing out takes no memory and a fixed number of machine steps.
//!
//! Heaps: of what kind the pages are that serve a request of a heap.
#![tactic(auto)]

pub mod outcomes;
pub mod seat;
mod table;
pub mod utility;

pub use outcomes::Outcomes;
pub use pas_profile::EventRoom;
pub use seat::CacheSeat;
pub use table::HeapTable;
pub use utility::Utility;
