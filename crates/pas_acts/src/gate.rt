//! What is called round each operation of a thread.

/// A gate that all workers share. It is called round each operation, by the actor's number and the operation's number among those of the
/// actor in the phase, from 1.
pub trait Gate {
    /// Before the operation.
    fn before(&self, actor: u8, number: u32);

    /// Once it is answered.
    fn after(&self, actor: u8, number: u32);
}

/// The gate that is always open.
#[derive(Clone, Copy, Drop)]
pub struct OpenGate;

impl Gate for OpenGate {
    fn before(&self, _actor: u8, _number: u32) {}

    fn after(&self, _actor: u8, _number: u32) {}
}
