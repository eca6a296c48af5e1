//! Bit-fit pages: blocks of mixed sizes, each at the lowest run of free grains that is long enough and aligned.
#![tactic(auto)]

mod allocating;
mod ending;
pub mod laws;
mod wanted;

pub use allocating::alloc;
pub use ending::end_bits;
pub use wanted::Wanted;
