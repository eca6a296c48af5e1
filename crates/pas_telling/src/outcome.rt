//! What an input comes to.
use pas_records::Records;
use pas_steps::State;
use pas_trace::TraceFault;

/// What an input comes to.
#[derive(Drop)]
pub enum Outcome {
    /// A trace that was replayed: the records of its replay, and the region's state at its end.
    Replayed(Records, State),
    /// No trace: its first fault.
    Faulty(TraceFault),
}
