//! Searches of pages: for an offered page of a directory, for a page without a deed, for a run of whole pages, and for why there is none,
//! with the readings that show it.
#![tactic(auto)]

mod bare;
mod looked;
mod offered;
mod parked;
mod passed;
mod row;
mod runs;
mod usable;

pub use bare::first_without_deed;
pub use looked::Looked;
pub use offered::first_offered;
pub use parked::verdict;
pub use row::pages_below;
pub use runs::{next_run, run_of_pages};
