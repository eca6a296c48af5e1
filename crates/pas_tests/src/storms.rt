ghost use Rattle.std.specs.Prelude.{◌≡◌, [], IfOk};
ghost use Rattle.pas_steps.specs.Lists.{Whole};

use crate::plain::epochs;
use pas_plain::*;
use pas_profile::*;
use pas_steps::Desk;
use std::alloc::Global;
use std::test::Fail;

const PROFILE: Profile = Profile {
    pages: 1,
    threads: 2,
    age: 1,
    heaps: 1,
    shared: 0,
    classes: 16,
};

/// The epoch that the intruder asks for.
const LATER: u64 = 7;

/// Raises the epoch before the own step of one number, and counts how often it was called, and with which number at
/// last.
#[derive(Clone, Copy, PartialEq, Eq)]
struct Ticker {
    at: u64,
    calls: u64,
    last: u64,
}

impl Intruder for Ticker {
    fn act<D: Desk>(&mut self, desk: &mut D, number: u64) {
        self.calls = self.calls.saturating_add(1);
        self.last = number;
        if number == self.at {
            desk.tick(LATER);
        }
    }
}

/// Actor 1 at a region that nobody used yet, while actor 2 raises the epoch before this own step. Each has room for so
/// many events.
fn stormed(alloc: Global, at: u64, events: u32) -> Result<StormDesk<Ticker>, Fail>
    ensures stands { IfOk result (λ storm. (l : Whole) → (⟦<StormDesk<Ticker> as Desk>⟧.standing storm).stands [] l) }
{
    let (desk, foreign) = beside(alloc, PROFILE, events)?;
    let (region, own) = desk.into_parts();
    let ticker = Ticker {
        at,
        calls: 0,
        last: 0,
    };
    Ok(region.storm(own, foreign, ticker))
}

/// Whether the own actor made three steps at this region.
fn has_stepped(storm: &StormDesk<Ticker>) -> bool {
    storm.count() == 3 && storm.actor() == 1 && *storm.profile() == PROFILE
}

/// Whether the foreign actor made so many steps, beside three of the own one, and the intruder was called so often.
fn has_acted(storm: StormDesk<Ticker>, steps: u64, calls: u64) -> bool {
    let (_, own, foreign, ticker) = storm.into_parts();
    let called = Ticker {
        at: 2,
        calls,
        last: calls,
    };
    own.count() == 3 && foreign.count() == steps && ticker == called
}

#[test]
fn an_intruder_acts_before_each_own_step(rt: HostRuntime) -> Result<(), Fail> {
    let mut storm = stormed(rt.alloc(), 2, 70)?;
    assert!(rt; epochs(&mut storm) == [0, LATER, LATER] && has_stepped(&storm));
    // the tick is a step of the foreign actor
    assert!(rt; has_acted(storm, 1, 3));
    Ok(())
}

#[test]
fn an_intruder_without_room_does_not_act(rt: HostRuntime) -> Result<(), Fail> {
    let mut storm = stormed(rt.alloc(), 2, 69)?;
    assert!(rt; epochs(&mut storm) == [0, 0, 0]);
    assert!(rt; has_acted(storm, 0, 0));
    Ok(())
}
