//! The top call: from the words and the bytes that come in to the bytes and the status that go out.
#![tactic(auto)]

pub mod main_call;
mod opening;
mod outcome;
mod running;

pub use main_call::pas_main;
pub use pas_calls::laws;
pub use pas_calls::remaking::Reallocation;
pub use pas_telling::manner;
