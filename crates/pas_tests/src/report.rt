ghost use Rattle.pas_profile.specs.Directories.{IsKind};
ghost use Rattle.pas_records.specs.Lines.{IsShowable, CanShow};

use pas_io::memory::MemorySink;
use pas_profile::{Address, Block, Directory, Event, Kind, Name, NoMemory, Profile, Why};
use pas_records::{Record, Said, event_line, record_line, room_for_replay, said_line};
use pas_report::{has_deed_words, report, total_line};
use pas_steps::State;
use std::alloc::{AllocError, Global};
use std::test::Fail;

/// Whether the event is shown by this line.
fn shows(event: &Event, text: &str) -> bool
    requires { IsShowable event.now }
{
    event_line(event).as_str() == text
}

/// Whether the deed of a page by this actor is shown by this line.
fn shows_deed(actor: u8, page: u32, directory: Directory, text: &str) -> bool
    requires { IsKind directory.kind }
{
    let deed = Event::Deed {
        actor,
        page,
        directory,
    };
    shows(&deed, text)
}

#[test]
fn deeds_are_shown(rt: HostRuntime) {
    let class = Directory {
        heap: 0,
        kind: Kind::Class(1),
    };
    let bitfit = Directory {
        heap: 0,
        kind: Kind::Bitfit,
    };
    let large = Directory {
        heap: 31,
        kind: Kind::Large,
    };
    assert!(rt; shows_deed(1, 1, class, "1 deed page 1 heap 0 class 32\n"));
    assert!(rt; shows_deed(1, 3, bitfit, "1 deed page 3 heap 0 bitfit\n"));
    assert!(rt; shows_deed(16, 4096, large, "16 deed page 4096 heap 31 large\n"));
}

const NAME: Name = Name {
    address: Address(4096),
    turn: 0,
};

#[test]
fn events_are_shown(rt: HostRuntime) {
    let back = Event::Back { actor: 1, page: 1 };
    let unback = Event::Unback {
        actor: 0,
        page: 1,
        epoch: 5,
    };
    let block = Block {
        name: NAME,
        room: 32,
        heap: 0,
    };
    let give = Event::Give { actor: 1, block };
    let freed = Event::End {
        actor: 1,
        name: NAME,
        epoch: 3,
    };
    assert!(rt; shows(&back, "1 back page 1\n"));
    assert!(rt; shows(&unback, "0 unback page 1 epoch 5\n"));
    assert!(rt; shows(&give, "1 give 0x00001000 turn 0 room 32 heap 0\n"));
    assert!(rt; shows(&freed, "1 freed 0x00001000 turn 0 epoch 3\n"));
}

/// Whether a refusal for this reason is shown by this line.
fn shows_refusal(name: Name, why: Why, text: &str) -> bool {
    let refusal = Event::Reject {
        actor: 1,
        name,
        why,
    };
    shows(&refusal, text)
}

#[test]
fn refusals_are_shown(rt: HostRuntime) {
    let other = Name {
        address: Address(4112),
        turn: 0,
    };
    assert!(rt; shows_refusal(NAME, Why::Ended, "1 ended 0x00001000 turn 0\n"));
    assert!(rt; shows_refusal(other, Why::NoBlock, "1 no-block 0x00001010 turn 0\n"));
    let line = "1 size-differs 0x00001000 turn 0 asked 48\n";
    assert!(rt; shows_refusal(NAME, Why::SizeDiffers(48), line));
}

/// Answers by an actor, and their lines.
const ANSWERS: [(u8, Said, &str); 13] = [
    (1, Said::NoSpace { name: 2 }, "1 no-space name 2\n"),
    (2, Said::Held { page: 1, name: 2 }, "2 held 1 name 2\n"),
    (
        1,
        Said::Outside {
            block: Name {
                address: Address(8),
                turn: 0,
            },
        },
        "1 outside 0x00000008 turn 0\n",
    ),
    (
        1,
        Said::Unaligned {
            block: Name {
                address: Address(4104),
                turn: 0,
            },
        },
        "1 unaligned 0x00001008 turn 0\n",
    ),
    (1, Said::Skipped { name: 2 }, "1 skipped name 2\n"),
    (0, Said::Tick(3), "0 tick 3\n"),
    (0, Said::Pass(4), "0 pass 4\n"),
    (0, Said::Bare(1), "0 bare page 1\n"),
    (
        0,
        Said::Young { page: 1, stamp: 3 },
        "0 young page 1 stamp 3\n",
    ),
    (
        0,
        Said::InUse {
            page: 1,
            word: 0,
            value: 0,
        },
        "0 in-use page 1 word 0 value 0x0000000000000000\n",
    ),
    (
        0,
        Said::InUse {
            page: 1,
            word: 3,
            value: 0xfedc_ba98_7654_3210,
        },
        "0 in-use page 1 word 3 value 0xfedcba9876543210\n",
    ),
    (0, Said::NotOffered(1), "0 not-offered page 1\n"),
    (0, Said::Stopped(1), "0 stopped 1\n"),
];

/// Whether the answer is shown by this line.
fn shows_answer(actor: u8, said: &Said, text: &str) -> bool {
    said_line(actor, said).as_str() == text
}

#[test]
fn answers_are_shown(rt: HostRuntime) {
    for (actor, said, text) in &ANSWERS {
        assert!(rt; shows_answer(*actor, said, text));
    }
}

/// Whether the record is shown by this line.
fn shows_record(record: &Record, text: &str) -> bool
    requires { CanShow record.now }
{
    record_line(record).as_str() == text
}

#[test]
fn records_are_shown(rt: HostRuntime) {
    let tick = Record::Said(0, Said::Tick(u64::MAX));
    assert!(rt; shows_record(&tick, "0 tick 18446744073709551615\n"));
    assert!(rt; shows_record(&Record::Phase(2), "phase 2\n"));
    assert!(rt; shows_record(&Record::Close, "close\n"));
}

/// A region of two pages. The first is of class 1 and empty: one block was given and ended there. The second is a
/// bit-fit page with one live block of two grains.
fn small_state(alloc: Global) -> Result<State, AllocError> {
    let profile = Profile {
        pages: 2,
        threads: 1,
        age: 1,
        heaps: 1,
        shared: 0,
        classes: 16,
    };
    let mut words = vec![in alloc; 0u64; 552]?;
    words[1..5].fill(u64::MAX);
    words[5] = 1;
    words[261] = 65_537;
    words[262] = 1;
    words[264..268].fill(u64::MAX);
    words[264] = u64::MAX - 3;
    words[268] = (1 << 63) + (2 << 40);
    words[524] = 65_556;
    words[525] = 1;
    words[526] = 7;
    words[527] = 4;
    words[528] = 2;
    words[530] = 2;
    Ok(State::of_words(profile, words))
}

/// Its totals.
const TOTAL: &str = "total deeds 2 backed 2 live 1 given 2 ended 1\n";

/// Its report: at a hundred bytes a write, the first write is of the first hundred.
const REPORT: &str = "report\n\
page 1 heap 0 class 32 live 0 free 256 stamp 0 marks backed+offered+hinted\n\
page 2 heap 0 bitfit live 1 free 254 stamp 7 marks backed+parked\n\
total deeds 2 backed 2 live 1 given 2 ended 1\n";

/// A sink that takes a hundred bytes a write, and whose listed writes fail.
fn sink(alloc: Global, fails: &[u64]) -> Result<MemorySink, AllocError> {
    let buffer = vec![in alloc; 0u8; 512]?;
    Ok(MemorySink::new(buffer, 100, Vec::from_slice(alloc, fails)?))
}

/// Whether just this text is written of the report, and all of it without a fault, where the listed writes fail.
fn writes(alloc: Global, state: &State, fails: &[u64], text: &[u8]) -> Result<bool, AllocError> {
    let mut sink = sink(alloc, fails)?;
    let is_whole = has_deed_words(state) && report(state, &mut sink).is_ok();
    Ok(is_whole == fails.is_empty() && sink.held() == text)
}

#[test]
fn small_report(rt: HostRuntime) -> Result<(), Fail> {
    let state = small_state(rt.alloc())?;
    assert!(rt; total_line(&state).as_str() == TOTAL && has_deed_words(&state));
    let whole = writes(rt.alloc(), &state, &[], REPORT.as_bytes());
    assert!(rt; matches!(whole, Ok(true)));
    let cut = writes(rt.alloc(), &state, &[2], &REPORT.as_bytes()[..100]);
    assert!(rt; matches!(cut, Ok(true)));
    Ok(())
}

/// Whether a room of no event has place for the last line alone, and takes it.
fn takes_the_close(alloc: Global) -> Result<bool, NoMemory> {
    let mut room = room_for_replay(alloc, 0, 0)?;
    let spare = room.spare();
    room.push(Record::Close);
    Ok([spare, room.spare()] == [1, 0] && room.as_slice() == [Record::Close].as_slice())
}

/// Whether a room is filled from another, twice, which is emptied and keeps its size.
fn is_filled(alloc: Global) -> Result<bool, NoMemory> {
    let mut all = room_for_replay(alloc, 1, 1)?;
    let mut more = room_for_replay(alloc, 2, 0)?;
    more.push(Record::Phase(1));
    all.append(&mut more);
    let is_empty = more.as_slice().is_empty();
    more.push(Record::Phase(2));
    more.push(Record::Close);
    all.append(&mut more);
    let records = [Record::Phase(1), Record::Phase(2), Record::Close];
    Ok(is_empty && all.as_slice() == records.as_slice() && [all.spare(), more.spare()] == [0, 3])
}

#[test]
fn rooms_of_records(rt: HostRuntime) {
    assert!(rt; matches!(takes_the_close(rt.alloc()), Ok(true)));
    assert!(rt; matches!(is_filled(rt.alloc()), Ok(true)));
}
