//! Tests of calls that the program doesn't make, and of what its text doesn't show.
#![tactic(auto)]

#[cfg(test)]
mod estimate_tests;
#[cfg(test)]
mod gate_tests;
#[cfg(test)]
mod machine_tests;
#[cfg(test)]
mod order_tests;
#[cfg(test)]
mod threads_tests;
#[cfg(test)]
mod traces;
