//! The search for a page that serves a request, written once for every kind of small page: a back end says by the trait
//! `Serving` how it serves a request from one page, and what of the page's free grains fits. Where a request takes a run
//! of the free grains, a back end says by the trait `Placing` which one, by the free words that were read, and no more:
//! `ByPlacement` takes just that run. By `Ranking` it says which of the offered pages is best, for a search that reads
//! them all first.
#![tactic(auto)]

mod allocating;
mod allocating_best;
mod bare;
mod best;
mod by_placement;
mod finding;
pub mod laws;
mod offered;
mod passing;
mod placing;
mod ranking;
mod serving;
mod surveying;

pub use allocating::alloc;
pub use allocating_best::alloc_best;
pub use best::{find_best_page, take_best_page};
pub use by_placement::ByPlacement;
pub use finding::find_page;
pub use placing::{LeastRun, Placing, Run};
pub use ranking::Ranking;
pub use serving::{Served, Serving};
pub use surveying::Best;
