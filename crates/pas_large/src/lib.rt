//! Large blocks: runs of whole pages.
//!
//! Indexes of pages: ranges that neither overlap nor touch, and how they join.
#![tactic(auto)]

mod allocating;
mod claiming;
mod door;
mod editing;
mod finding;
mod getting;
mod giving;
mod index;
mod index_laws;
pub mod laws;
mod naming;
mod plain_door;
mod refusing;
mod running;
mod searching;
mod shared_door;
mod span;
mod taking;

pub use allocating::alloc;
pub use door::{Door, NoIndex};
pub use giving::give_run;
pub use index::{Full, LargeIndex};
pub use index_laws::one_list_of_ranges;
pub use pas_profile::Range;
pub use plain_door::PlainDoor;
pub use running::{claim_run, release};
pub use shared_door::SharedDoor;
pub use span::Span;
