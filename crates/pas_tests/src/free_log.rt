//! A log that is full, and its flush.
ghost use Rattle.std.specs.Prelude.{◌<◌, All};
ghost use Rattle.pas_free_log.specs.{Conditions.IsEntryOf, Logs.entries_in};
ghost use Rattle.pas_profile.specs.Entries.{entry_of};

use crate::plain::PROFILE;
use arrayvec::ArrayVec;
use pas_free_log::{FreeLog, flush};
use pas_plain::alone;
use pas_profile::{Address, Event, Name, Why};
use pas_steps::Desk;
use std::test::Fail;

/// A name by its grain on page 1.
fn name(grain: u8) -> Name
    ensures { grain < 65 → IsEntryOf PROFILE (entry_of result) }
{
    Name {
        address: Address(4096 + 16 * grain as u32),
        turn: 0,
    }
}

#[test]
fn a_log_has_64_entries(rt: HostRuntime) {
    let mut log = FreeLog::new();
    assert!(rt; log.len() == 0);
    for grain in 0..64u8 {
        assert!(rt; log.add(name(grain)));
    }
    assert!(rt; log.len() == 64 && !log.add(name(64)) && log.len() == 64);
}

/// A log to which 65 names were added.
fn full_log() -> FreeLog
    ensures { All (IsEntryOf PROFILE) (entries_in result) }
{
    let mut log = FreeLog::new();
    for grain in 0..65u8 {
        log.add(name(grain));
    }
    log
}

/// Whether the names of the first so many grains are refused in order, since no block lives there.
fn are_refused(events: &[Event]) -> bool {
    let mut grain = 0;
    for event in events {
        let refusal = Event::Reject {
            actor: 1,
            name: name(grain),
            why: Why::NoBlock,
        };
        if *event != refusal {
            return false;
        }
        grain = grain.saturating_add(1);
    }
    true
}

#[test]
fn a_full_log_is_flushed_in_order(rt: HostRuntime) -> Result<(), Fail> {
    let mut desk = alone(rt.alloc(), PROFILE, 64)?;
    let mut log = full_log();
    assert!(rt; log.len() == 64);
    flush(&mut desk, &mut log, &mut ArrayVec::new());
    assert!(rt; log.len() == 0);
    assert!(rt; desk.shown().len() == 64 && are_refused(desk.shown()));
    Ok(())
}
