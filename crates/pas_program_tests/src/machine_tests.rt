//! The machine as a program takes each event of each replay of a generated trace.

use crate::traces::{MOST_BYTES, replayed};
use pas_generate::trace_of;
use pas_machine::Machine;
use pas_records::Record;
use std::alloc::Global;
use std::test::Fail;

/// Whether the machine takes the event of the record, if it has one.
fn takes(machine: &mut Machine, shown: &Record) -> bool {
    match shown {
        Record::Event(event) => machine.step(event).is_ok(),
        _ => true,
    }
}

/// Whether the machine takes each event of the trace's replay.
fn is_taken(alloc: Global, text: &[u8]) -> Result<bool, Fail> {
    if text.len() > MOST_BYTES {
        return Ok(false);
    }
    let (records, state) = replayed(alloc, text)?;
    let mut machine = Machine::try_new(alloc, *state.profile())?;
    for shown in records.as_slice() {
        if !takes(&mut machine, shown) {
            return Ok(false);
        }
    }
    Ok(true)
}

#[test]
fn generated_traces_are_taken(rt: HostRuntime) -> Result<(), Fail> {
    for (operations, pages) in &[(2000, 1024), (100_000, 4096)] {
        let text = trace_of(rt.alloc(), 7, *operations, 4, *pages)?;
        assert!(rt; is_taken(rt.alloc(), &text)?);
    }
    Ok(())
}
