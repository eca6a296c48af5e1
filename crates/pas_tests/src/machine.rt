use pas_machine::*;
use pas_profile::{Address, Block, Directory, Event, Kind, Name, Profile, Why};
use std::alloc::Global;

const PROFILE: Profile = Profile {
    pages: 3,
    threads: 1,
    age: 2,
    heaps: 2,
    shared: 0,
    classes: 16,
};

const fn deed(page: u32, heap: u8) -> Event {
    Event::Deed {
        actor: 1,
        page,
        directory: Directory {
            heap,
            kind: Kind::Bitfit,
        },
    }
}

const fn back(page: u32) -> Event {
    Event::Back { actor: 1, page }
}

const fn unback(page: u32, epoch: u64) -> Event {
    Event::Unback {
        actor: 0,
        page,
        epoch,
    }
}

const fn name(address: u32, turn: u64) -> Name {
    Name {
        address: Address(address),
        turn,
    }
}

const fn give(address: u32, turn: u64, room: u32, heap: u8) -> Event {
    Event::Give {
        actor: 1,
        block: Block {
            name: name(address, turn),
            room,
            heap,
        },
    }
}

const fn end(address: u32, turn: u64, epoch: u64) -> Event {
    Event::End {
        actor: 1,
        name: name(address, turn),
        epoch,
    }
}

const fn reject(address: u32, turn: u64, why: Why) -> Event {
    Event::Reject {
        actor: 1,
        name: name(address, turn),
        why,
    }
}

/// An event that is refused for this reason after so many events of a run, and one that may come in its place.
#[derive(Drop)]
struct Refusal {
    after: usize,
    event: Event,
    reason: Illegal,
    next: Event,
}

const fn refused(after: usize, event: Event, reason: Illegal, next: Event) -> Refusal {
    Refusal {
        after,
        event,
        reason,
        next,
    }
}

impl Refusal {
    /// Whether the event is refused, twice, and the next one is taken as if it had never come.
    fn holds(&self, alloc: Global, run: &[Event]) -> bool {
        let Ok(mut machine) = Machine::try_new(alloc, PROFILE) else {
            return false;
        };
        for earlier in run.iter().take(self.after) {
            if machine.step(earlier).is_err() {
                return false;
            }
        }
        let fault = Err(StepFault::Illegal(self.reason));
        let answers = [
            machine.step(&self.event),
            machine.step(&self.event),
            machine.step(&self.next),
        ];
        answers == [fault, fault, Ok(())]
    }
}

/// Events at places outside of the region, and of crooked blocks.
fn outside() -> [Event; 11] {
    [
        deed(0, 0),
        deed(4, 9),
        back(4),
        unback(0, 9),
        give(0x3ff0, 0, 32, 0),
        give(0x3000, 0, 0, 0),
        give(0x3000, 0, 24, 0),
        give(0x3008, 0, 16, 9),
        end(0x4000, 0, 1),
        end(0x3008, 0, 1),
        reject(0x0ff0, 0, Why::NoBlock),
    ]
}

#[test]
fn places_outside_and_crooked_blocks_are_bad_pages(rt: HostRuntime) {
    let run = [deed(3, 0), back(3)];
    let next = give(0x3ff0, 0, 16, 0);
    for event in outside() {
        let refusal = refused(2, event, Illegal::BadPage, next);
        assert!(rt; refusal.holds(rt.alloc(), &run));
    }
}

#[test]
fn deeds_and_backs_are_refused(rt: HostRuntime) {
    let run = [deed(1, 0), back(1)];
    let refusals = [
        refused(0, deed(1, 2), Illegal::BadHeap, deed(1, 1)),
        refused(1, deed(1, 1), Illegal::DeedTwice, back(1)),
        refused(0, back(1), Illegal::NoDeed, deed(1, 0)),
        refused(2, back(1), Illegal::BackedTwice, unback(1, 2)),
    ];
    for refusal in &refusals {
        assert!(rt; refusal.holds(rt.alloc(), &run));
    }
}

#[test]
fn gives_are_refused(rt: HostRuntime) {
    let block = give(0x1000, 0, 32, 0);
    let run = [deed(1, 0), back(1), deed(2, 0), block];
    let refusals = [
        refused(0, block, Illegal::NoDeed, deed(1, 0)),
        refused(0, give(0x1000, 7, 32, 2), Illegal::BadHeap, deed(1, 0)),
        refused(1, block, Illegal::NotBacked, back(1)),
        refused(3, give(0x1ff0, 0, 32, 0), Illegal::NotBacked, block),
        refused(3, give(0x1000, 1, 32, 0), Illegal::WrongTurn, block),
    ];
    for refusal in &refusals {
        assert!(rt; refusal.holds(rt.alloc(), &run));
    }
    let other = refused(1, block, Illegal::NoDeed, back(1));
    assert!(rt; other.holds(rt.alloc(), &[deed(1, 1)]));
}

#[test]
fn gives_where_a_block_lives_are_refused(rt: HostRuntime) {
    let run = [deed(1, 0), back(1), give(0x1000, 0, 32, 0)];
    let beside = give(0x1020, 0, 16, 0);
    let within = refused(3, give(0x1010, 0, 16, 0), Illegal::LivesThere, beside);
    let again = refused(3, give(0x1000, 1, 16, 0), Illegal::LivesThere, beside);
    assert!(rt; within.holds(rt.alloc(), &run) && again.holds(rt.alloc(), &run));
}

/// A block over two pages lives and ends.
fn life() -> [Event; 6] {
    [
        deed(1, 0),
        back(1),
        deed(2, 0),
        back(2),
        give(0x1ff0, 0, 32, 0),
        end(0x1ff0, 0, 3),
    ]
}

#[test]
fn ends_and_unbacks_are_refused_before_an_end(rt: HostRuntime) {
    let last = end(0x1ff0, 0, 3);
    let refusals = [
        refused(0, unback(1, 9), Illegal::NotBacked, deed(1, 0)),
        refused(5, unback(1, 9), Illegal::LivesThere, last),
        refused(5, unback(2, 9), Illegal::LivesThere, last),
        refused(5, end(0x1ff0, 1, 3), Illegal::NotLive, last),
        refused(5, end(0x2000, 0, 3), Illegal::NotLive, last),
    ];
    let run = life();
    for refusal in &refusals {
        assert!(rt; refusal.holds(rt.alloc(), &run));
    }
}

#[test]
fn ends_and_unbacks_are_refused_after_an_end(rt: HostRuntime) {
    let again = give(0x1ff0, 1, 32, 0);
    let refusals = [
        refused(6, unback(1, 4), Illegal::TooYoung, unback(1, 5)),
        refused(6, unback(2, 2), Illegal::TooYoung, unback(2, 5)),
        refused(6, end(0x1ff0, 0, 3), Illegal::NotLive, again),
    ];
    let run = life();
    for refusal in &refusals {
        assert!(rt; refusal.holds(rt.alloc(), &run));
    }
}

#[test]
fn refusals_have_their_true_reason(rt: HostRuntime) {
    let last = end(0x1000, 0, 1);
    let run = [deed(1, 0), back(1), give(0x1000, 0, 32, 0), last];
    let ended = reject(0x1000, 0, Why::Ended);
    let unknown = reject(0x1000, 0, Why::NoBlock);
    let later = reject(0x1000, 1, Why::NoBlock);
    let refusals = [
        refused(3, unknown, Illegal::WrongReason, last),
        refused(3, ended, Illegal::WrongReason, last),
        refused(
            3,
            reject(0x1000, 1, Why::Ended),
            Illegal::WrongReason,
            later,
        ),
        refused(4, unknown, Illegal::WrongReason, ended),
    ];
    for refusal in &refusals {
        assert!(rt; refusal.holds(rt.alloc(), &run));
    }
}

#[test]
fn another_room_is_the_reason_only_while_the_block_lives(rt: HostRuntime) {
    let other = reject(0x1000, 0, Why::SizeDiffers(48));
    let same = reject(0x1000, 0, Why::SizeDiffers(32));
    let later = reject(0x1000, 1, Why::SizeDiffers(48));
    let run = [
        deed(1, 0),
        back(1),
        give(0x1000, 0, 32, 0),
        other,
        end(0x1000, 0, 1),
    ];
    let refusals = [
        refused(3, same, Illegal::WrongReason, other),
        refused(3, later, Illegal::WrongReason, other),
        refused(
            5,
            other,
            Illegal::WrongReason,
            reject(0x1000, 0, Why::Ended),
        ),
    ];
    for refusal in &refusals {
        assert!(rt; refusal.holds(rt.alloc(), &run));
    }
}

/// Whether the fault is told by this text.
fn is_told(alloc: Global, fault: StepFault, text: &str) -> bool {
    match format!(in alloc; "{fault}") {
        Ok(told) => told.as_str() == text,
        Err(_) => false,
    }
}

#[test]
fn faults_have_texts_and_numbers(rt: HostRuntime) {
    let fault = StepFault::Illegal(Illegal::DeedTwice);
    assert!(rt; is_told(rt.alloc(), fault, "illegal event: the page has a deed"));
    assert!(rt; is_told(rt.alloc(), StepFault::NoMemory, "out of memory"));
    assert!(rt; Illegal::BadPage.number() == 1 && Illegal::WrongReason.number() == 11);
}
