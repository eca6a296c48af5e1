//! That a replay in the order of its plan comes to what the text as a function says, act by act.
//!
//! The text of a replay in the order of the text, as a function of the bytes of a trace.
#![tactic(auto)]

pub mod laws;
