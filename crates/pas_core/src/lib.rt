//! Laws over every legal list of steps, of any actors.
#![tactic(auto)]

pub mod knowledge_laws;
pub mod laws;
pub mod lone_laws;
pub mod order_laws;
