//! What `order`, `check` and `gen` come to, each from its input to the text that is written and the status; and that a
//! replay in the order of the text is written as a transcript that a check accepts.
#![tactic(auto)]

pub mod acceptance;
pub mod generating;
pub mod judging;
pub mod laws;
mod line_writer;
pub mod ordering;
mod reading;
pub mod remaking;
