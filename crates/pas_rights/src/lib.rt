//! The right of a page and its grains: how an actor claims the right, looks at the grains, takes, gives and puts them back, and gives the right
//! back so that no free grain is left on a page that nobody offers, and no empty page without its hint.
#![tactic(auto)]

mod claiming;
mod giving;
mod leaving;
mod looking;
mod putting;
mod reading;
mod returning;
mod taking;

pub use claiming::claim;
pub use giving::give;
pub use leaving::leave;
pub use putting::{put, put_and_leave, put_and_return, put_run};
pub use reading::{Used, first_used, read};
pub use returning::returned;
pub use taking::take;
