//! Sets as bits: masks of the 256 grains of a page, and the words of page vectors.
//!
//! Bit g of a mask is bit `g % 64` of word `g / 64`. A mask is the set of the numbers below 256 whose bits are set, and each call says what
//! it does to that set, or which of its members it finds. No call refuses, and none allocates.
//!
//! Kernels over rows of words, eight words at a time in vector lanes.
//!
//! A row of words is a set of numbers: number n stands in bit `n % 64` of word `n / 64`. Each kernel answers what its
//! plain definition on that set says, for rows of every length: the whole groups of eight words are read in lanes, and
//! the words behind the last whole group one by one. No call refuses, and none allocates.
#![tactic(auto)]

pub mod free_runs;
pub mod mask;
mod moving;
pub mod page_vector;
mod row_compare;
mod row_count;
mod row_search;
pub mod run;
pub mod search;

pub use free_runs::FreeRun;
pub use mask::Mask4;
pub use row_compare::any_and_not;
pub use row_count::count_ones;
pub use row_search::{LANES, all_zero, first_set};
