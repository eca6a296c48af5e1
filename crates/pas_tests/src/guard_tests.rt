//! Guards go up and down while another actor acts between the keeper's steps.

use crate::storming::{Found, storm};
use crate::visiting::visits_of;
use std::alloc::Global;
use std::test::Fail;

/// What storms found together.
#[derive(Clone, Copy, Drop)]
struct Swept {
    raised: usize,
    unguarded: usize,
    unbacked: usize,
    visits: usize,
    is_sound: bool,
}

impl Swept {
    /// One storm more: in each no outer page was backed, no page was lost, and all guards that went up came down.
    fn count(&mut self, found: &Found) {
        self.raised = self.raised.saturating_add(found.raised);
        self.unguarded = self.unguarded.saturating_add(found.unguarded);
        self.unbacked = self.unbacked.saturating_add(found.unbacked);
        self.visits = self.visits.saturating_add(found.visits);
        if !found.are_bare || found.fault.is_some() || found.raised != found.lowered {
            self.is_sound = false;
        }
    }
}

/// So many storms, with a visit before each of the keeper's steps that is so far from the one before it.
fn sweep(alloc: Global, storms: u64, gap: u64) -> Result<Swept, Fail> {
    let mut swept = Swept {
        raised: 0,
        unguarded: 0,
        unbacked: 0,
        visits: 0,
        is_sound: true,
    };
    for seed in 0..storms {
        let found = storm(alloc, visits_of(alloc, seed, 120, gap)?)?;
        swept.count(&found);
    }
    Ok(swept)
}

#[test]
fn guards_stand_among_few_visits(rt: HostRuntime) -> Result<(), Fail> {
    let swept = sweep(rt.alloc(), 2000, 7)?;
    assert!(rt; swept.is_sound);
    assert!(rt; swept.raised > 2000);
    assert!(rt; swept.unguarded > 2000);
    assert!(rt; swept.unbacked > 2000);
    assert!(rt; swept.visits > 50_000);
    Ok(())
}

#[test]
fn guards_stand_among_more_visits(rt: HostRuntime) -> Result<(), Fail> {
    let swept = sweep(rt.alloc(), 1000, 3)?;
    assert!(rt; swept.is_sound);
    assert!(rt; swept.raised > 500);
    assert!(rt; swept.unguarded > 500);
    assert!(rt; swept.unbacked > 500);
    assert!(rt; swept.visits > 10_000);
    Ok(())
}

#[test]
fn guards_stand_among_visits_before_each_step(rt: HostRuntime) -> Result<(), Fail> {
    let swept = sweep(rt.alloc(), 1000, 1)?;
    assert!(rt; swept.is_sound);
    assert!(rt; swept.raised > 50);
    assert!(rt; swept.unguarded > 500);
    assert!(rt; swept.unbacked > 500);
    assert!(rt; swept.visits > 10_000);
    Ok(())
}
