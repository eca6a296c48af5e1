//! Lines of worked transcripts, read back.
use pas_check::read_record;
use pas_profile::{Address, Block, Directory, Event, Kind, Name, Why};
use pas_records::{Record, Said};

const NAME: Name = Name {
    address: Address(4096),
    turn: 0,
};

/// Lines, and what they tell.
const LINES: [(&[u8], Record); 6] = [
    (
        b"1 deed page 1 heap 0 class 32\n",
        Record::Event(Event::Deed {
            actor: 1,
            page: 1,
            directory: Directory {
                heap: 0,
                kind: Kind::Class(1),
            },
        }),
    ),
    (
        b"1 give 0x00001000 turn 0 room 32 heap 0\n",
        Record::Event(Event::Give {
            actor: 1,
            block: Block {
                name: NAME,
                room: 32,
                heap: 0,
            },
        }),
    ),
    (
        b"1 ended 0x00001000 turn 0\n",
        Record::Event(Event::Reject {
            actor: 1,
            name: NAME,
            why: Why::Ended,
        }),
    ),
    (
        b"0 in-use page 3 word 2 value 0xfffffffffffffffe\n",
        Record::Said(
            0,
            Said::InUse {
                page: 3,
                word: 2,
                value: 18446744073709551614,
            },
        ),
    ),
    (b"phase 12\n", Record::Phase(12)),
    (b"close\n", Record::Close),
];

/// Whether the line tells this.
fn tells(line: &[u8], record: Record) -> bool {
    read_record(line) == Some(record)
}

#[test]
fn lines_are_read(rt: HostRuntime) {
    for (line, record) in &LINES {
        assert!(rt; tells(line, *record));
    }
}

/// Lines that are nearly some of a transcript.
const OTHERS: [&[u8]; 9] = [
    b"",
    b"close",
    b"1 back page 01\n",
    b"1  back page 1\n",
    b"1 back page 1 \n",
    b"1 back page 4294967296\n",
    b"1 deed page 1 heap 0 class 33\n",
    b"1 ended 0x00001A00 turn 0\n",
    b"report\n",
];

#[test]
fn other_lines_are_of_no_record(rt: HostRuntime) {
    for line in &OTHERS {
        assert!(rt; read_record(line).is_none());
    }
}
