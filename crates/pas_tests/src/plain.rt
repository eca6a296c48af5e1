//! An actor at a plain region gives a block over two pages and ends it, and makes steps at a closed desk.
ghost use Rattle.std.specs.Prelude.{◌≡◌, ◌≤◌, IfOk, []};
ghost use Rattle.pas_steps.specs.{Lists.Whole, States.profile_of as the_profile_of, Views.View, Desks.{CanCall, CanMake}, Clear.IsClear};
ghost use Rattle.pas_plain.specs.{Plain.{profile_of, spare_in}, Seats.{DeskStands, region_of, pass_of, standing_of}};
ghost use Rattle.pas_tests.specs.Walks.{HasMade};

use crate::walking::walk;
use pas_plain::*;
use pas_profile::*;
use pas_steps::{Desk, Made, State, Step};
use std::alloc::{AllocError, Global};
use std::test::Fail;

pub(crate) const PROFILE: Profile = Profile {
    pages: 3,
    threads: 1,
    age: 1,
    heaps: 1,
    shared: 0,
    classes: 16,
};

const DIRECTORY: Directory = Directory {
    heap: 0,
    kind: Kind::Bitfit,
};

pub(crate) const NAME: Name = Name {
    address: Address(8176),
    turn: 0,
};

/// The last grain of page 1 and the first one of page 2.
const BLOCK: Block = Block {
    name: NAME,
    room: 32,
    heap: 0,
};

/// The steps that give the block, with their answers.
const GIVE: [Made; 9] = [
    Made {
        step: Step::Look { word: Word::Epoch },
        answer: 0,
    },
    Made {
        step: Step::Deed {
            page: 1,
            directory: DIRECTORY,
        },
        answer: 0,
    },
    Made {
        step: Step::Deed {
            page: 2,
            directory: DIRECTORY,
        },
        answer: 0,
    },
    Made {
        step: Step::Take {
            page: 1,
            word: 3,
            mask: 1 << 63,
        },
        answer: u64::MAX,
    },
    Made {
        step: Step::Take {
            page: 2,
            word: 0,
            mask: 1,
        },
        answer: u64::MAX,
    },
    Made {
        step: Step::Back { page: 1 },
        answer: 0,
    },
    Made {
        step: Step::Back { page: 2 },
        answer: 0,
    },
    Made {
        step: Step::Look {
            word: Word::Life(1, 255),
        },
        answer: 0,
    },
    Made {
        step: Step::Give { block: BLOCK },
        answer: 0,
    },
];

/// Gives the block, in nine steps that make five events. Whether each step had its answer.
pub(crate) fn give(desk: &mut PlainDesk) -> bool
    requires { HasMade [] desk.old }
    ensures clear { CanCall (standing_of desk.new) IsClear }
    ensures end { CanMake (standing_of desk.new) (Step.End NAME 2) }
    ensures profile { profile_of (region_of desk.new) ≡ PROFILE }
    ensures room { 3 ≤ spare_in (pass_of desk.new) }
{
    walk(desk, &GIVE)
}

/// The life of the block. Whether each step that gives it had its answer, and what its end read.
fn live_and_end(desk: &mut PlainDesk) -> (bool, u64)
    requires { HasMade [] desk.old }
    ensures stands { (v : View) × (l : Whole) × DeskStands desk.new v l }
    ensures profile { profile_of (region_of desk.new) ≡ PROFILE }
{
    (give(desk), desk.end(NAME, 2))
}

/// The actor rises, and the region is closed.
pub(crate) fn closed(alloc: Global, desk: PlainDesk) -> Result<State, AllocError>
    requires stands { (v : View) × (l : Whole) × DeskStands desk v l }
    requires profile { profile_of (region_of desk) ≡ PROFILE }
    ensures { IfOk result (λ state. the_profile_of state ≡ PROFILE) }
{
    let (region, pass) = desk.into_parts();
    Ok(close(region, vec![in alloc; pass]?))
}

/// Some words of the state.
fn values(state: &State) -> [u64; 9]
    requires { the_profile_of state.now ≡ PROFILE }
{
    [
        state.word(Word::Epoch),
        state.word(Word::Free(1, 0)),
        state.word(Word::Free(1, 3)),
        state.word(Word::Free(2, 0)),
        state.word(Word::Life(1, 255)),
        state.word(Word::Deed(2)),
        state.word(Word::Backed(1)),
        state.word(Word::Free(3, 3)),
        state.word(Word::Deed(3)),
    ]
}

/// The events of the life of a block.
const EVENTS: [Event; 6] = [
    Event::Deed {
        actor: 1,
        page: 1,
        directory: DIRECTORY,
    },
    Event::Deed {
        actor: 1,
        page: 2,
        directory: DIRECTORY,
    },
    Event::Back { actor: 1, page: 1 },
    Event::Back { actor: 1, page: 2 },
    Event::Give {
        actor: 1,
        block: BLOCK,
    },
    Event::End {
        actor: 1,
        name: NAME,
        epoch: 0,
    },
];

/// Whether actor 1 showed the events of the life, in ten steps with these answers.
fn has_lived(desk: &PlainDesk, lived: (bool, u64)) -> bool {
    lived == (true, 0x8000020000000000)
        && desk.shown() == EVENTS.as_slice()
        && desk.count() == 10
        && desk.actor() == 1
}

/// Whether the state is that after the life: the actor holds the grains again.
fn is_after_life(state: &State) -> bool
    requires { the_profile_of state.now ≡ PROFILE }
{
    let words = [
        0,
        u64::MAX,
        u64::MAX >> 1,
        u64::MAX - 1,
        1,
        65556,
        1,
        u64::MAX,
        0,
    ];
    *state.profile() == PROFILE && values(state) == words
}

#[test]
fn a_block_lives_and_ends(rt: HostRuntime) -> Result<(), Fail> {
    let mut desk = alone(rt.alloc(), PROFILE, 16)?;
    let lived = live_and_end(&mut desk);
    assert!(rt; has_lived(&desk, lived));
    let state = closed(rt.alloc(), desk)?;
    assert!(rt; is_after_life(&state));
    Ok(())
}

/// A look at the epoch, at any desk.
fn epoch_at<D: Desk>(desk: &mut D) -> u64
    requires { CanMake (D.standing desk.old) (Step.Look Word.Epoch) }
    ensures { CanMake (D.standing desk.new) (Step.Look Word.Epoch) }
{
    desk.look(Word::Epoch)
}

/// Three looks at the epoch.
pub(crate) fn epochs<D: Desk>(desk: &mut D) -> [u64; 3]
    requires { CanMake (D.standing desk.old) (Step.Look Word.Epoch) }
{
    [epoch_at(desk), epoch_at(desk), epoch_at(desk)]
}

/// Whether the desk is that of actor 1, which made three steps at this region.
fn has_stepped(closed: &Closed<PlainDesk>) -> bool {
    closed.count() == 3 && closed.actor() == 1 && *closed.profile() == PROFILE
}

#[test]
fn a_closed_desk_steps(rt: HostRuntime) -> Result<(), Fail> {
    let mut closed = Closed::new(alone(rt.alloc(), PROFILE, 16)?);
    assert!(rt; epochs(&mut closed) == [0, 0, 0] && has_stepped(&closed));
    let desk = closed.into_inner();
    assert!(rt; desk.count() == 3);
    Ok(())
}
