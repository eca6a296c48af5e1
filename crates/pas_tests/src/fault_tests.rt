//! What a storm reports: refusals among its events, and each kind of fault where something was spoilt after it.

use crate::errand_tests::{FIRST, SLOT};
use crate::storm_turns::{Spoil, storm};
use pas_profile::*;
use pas_trials::{Errand, Fault, Visit};
use std::alloc::Global;
use std::test::Fail;

/// The first block of page 1.
const NAME: Name = Name {
    address: Address(4096),
    turn: 0,
};

/// Whether the last events are that actor 2 ends the first block, and actor 1 finds it ended.
fn are_one_end(events: &[Event]) -> bool {
    let last = [
        Event::End {
            actor: 2,
            name: NAME,
            epoch: 0,
        },
        Event::Reject {
            actor: 1,
            name: NAME,
            why: Why::Ended,
        },
    ];
    events.ends_with(&last)
}

#[test]
fn a_block_that_another_actor_ended_is_refused(rt: HostRuntime) -> Result<(), Fail> {
    let mut visits = Vec::new(rt.alloc());
    visits.push(Visit {
        at: 1,
        errand: FIRST,
    })?;
    let found = storm(rt.alloc(), 1, &[SLOT], FIRST, visits, Spoil::Nothing)?;
    assert!(rt; are_one_end(&found.events));
    assert!(rt; found.fault.is_none());
    Ok(())
}

/// Whether a storm without visits, in a region of one page, reports this where something was spoilt after it. One slot of 512 bytes lives on
/// the page, or none.
fn reports(alloc: Global, lives: bool, spoil: Spoil, fault: Option<Fault>) -> Result<bool, Fail> {
    let errand = if lives { Errand::Stop } else { FIRST };
    let found = storm(alloc, 1, &[SLOT], errand, Vec::new(alloc), spoil)?;
    Ok(found.fault == fault)
}

/// One word is changed, or none.
const SPOILS: [Spoil; 4] = [Spoil::Nothing, Spoil::Offered, Spoil::Hinted, Spoil::Free];

/// What is wrong then while a slot lives.
const WHILE_LIVING: [Option<Fault>; 4] = [
    None,
    Some(Fault::Lost(1)),
    None,
    Some(Fault::Miscounted(1)),
];

/// And on an empty page.
const ONCE_ENDED: [Option<Fault>; 4] = [
    None,
    Some(Fault::Lost(1)),
    Some(Fault::NotHinted(1)),
    Some(Fault::Miscounted(1)),
];

#[test]
fn each_fault_is_found(rt: HostRuntime) -> Result<(), Fail> {
    for at in 0..4 {
        assert!(rt; reports(rt.alloc(), true, SPOILS[at], WHILE_LIVING[at])?);
        assert!(rt; reports(rt.alloc(), false, SPOILS[at], ONCE_ENDED[at])?);
    }
    Ok(())
}

#[test]
fn events_that_are_no_run_are_found(rt: HostRuntime) -> Result<(), Fail> {
    // The events are a deed, the backing and a block, and its end where it ended.
    let first = Some(Fault::Unlawful(0));
    let fourth = Some(Fault::Unlawful(3));
    let fifth = Some(Fault::Unlawful(4));
    assert!(rt; reports(rt.alloc(), true, Spoil::FirstLost, first)?);
    assert!(rt; reports(rt.alloc(), true, Spoil::LastTwice, fourth)?);
    assert!(rt; reports(rt.alloc(), false, Spoil::LastTwice, fifth)?);
    Ok(())
}
