//! What holds of workers that each answer their own acts, however their steps interleave. Each law is the contract of an empty function.
ghost use Rattle.pas_acts.specs.{AloneInOrder.AloneIsInOrder, Shares.{AreWoven, AreJoined, AreKnownAfter, ActsAreShared, ArePhasesArranged}};

/// What all workers of a phase did, each for itself, answers the acts of the phase in the order of the text.
pub fn weaving()
    ensures woven { AreWoven }
    ensures joined { AreJoined }
    ensures known { AreKnownAfter }
{}

/// Each act of a phase is in the hands of one worker: a thread that has an operation in it, or the scavenger.
#[tactic(auto, using(crate::proofs::PhaseActs::acts_are_shared))]
pub fn shares()
    ensures { ActsAreShared }
{}

/// The records of a phase are written actor by actor, from the scavenger to the last thread, and each mark stays where it is.
pub fn records()
    ensures { ArePhasesArranged }
{}

/// Where one actor alone has operations in each phase, whichever it is, a replay on threads makes its steps in the order of the text, as it would with no threads.
pub fn alone()
    ensures { AloneIsInOrder }
{}
