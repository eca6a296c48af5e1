//! Tests of crates one by one: their public calls, each once on its happy path, with what no contract says.
//!
//! Storms round guards stand beside them: a keeper raises and lowers guards at a plain region, and between its steps
//! another actor claims, frees, passes and unbacks.
//!
//! So do sessions of one and two actors at a plain region, storms of one actor among the visits of another, and threads
//! at a shared region.
#![tactic(auto)]

#[cfg(test)]
mod beside_tests;
#[cfg(test)]
mod bestfit_tests;
#[cfg(test)]
mod bits;
#[cfg(test)]
mod bytes;
#[cfg(test)]
mod cache_tests;
#[cfg(test)]
mod check;
#[cfg(test)]
mod errand_tests;
#[cfg(test)]
mod fault_tests;
#[cfg(test)]
mod free_log;
#[cfg(test)]
mod generated;
#[cfg(test)]
mod guard_tests;
#[cfg(test)]
mod heaps;
#[cfg(test)]
mod keeping;
#[cfg(test)]
mod lanes;
#[cfg(test)]
mod large_index;
#[cfg(test)]
mod log_tests;
#[cfg(test)]
mod machine;
#[cfg(test)]
mod paging_tests;
#[cfg(test)]
mod pass_tests;
#[cfg(test)]
mod plain;
#[cfg(test)]
mod pools;
#[cfg(test)]
mod racing_tests;
#[cfg(test)]
mod report;
#[cfg(test)]
mod seating;
#[cfg(test)]
mod shared_seating;
#[cfg(test)]
mod shared_sizing_tests;
#[cfg(test)]
mod shared_storm_tests;
#[cfg(test)]
mod shared_turn_tests;
#[cfg(test)]
mod sharing_tests;
#[cfg(test)]
mod sheets;
#[cfg(test)]
mod sizing_tests;
#[cfg(test)]
mod slot_tests;
#[cfg(test)]
mod storm_turns;
#[cfg(test)]
mod storming;
#[cfg(test)]
mod storms;
#[cfg(test)]
mod traces;
#[cfg(test)]
mod trading_tests;
#[cfg(test)]
mod turn_tests;
#[cfg(test)]
mod visiting;
#[cfg(test)]
mod walking;
#[cfg(test)]
mod weaving;
#[cfg(test)]
mod words;
