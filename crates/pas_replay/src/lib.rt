//! The replay of a plan in the order of the text, over a plain region.
#![tactic(auto)]

pub mod alone;
pub mod kit;
mod order;
mod seats;
pub mod taking;

pub use alone::{by_one_thread, is_of_one_thread};
pub use kit::{PlainKit, in_order, in_order_to};
pub use pas_acts::records_for;
pub use pas_answers::Remake;
pub use taking::{Takes, records_for_taker};
