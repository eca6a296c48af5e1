//! Plans that texts have: what is read of them, where the program's text doesn't show it.
use pas_trace::{Plan, What, header_of_text, read_trace};
use std::alloc::Global;
use std::test::Fail;

/// The plan of a text.
fn plan_of(alloc: Global, text: &[u8]) -> Result<Plan, Fail> {
    if text.len() > 16_777_216 {
        return Err(Fail::new("the text is too long"));
    }
    match read_trace(alloc, text) {
        Ok(plan) => Ok(plan),
        Err(_) => Err(Fail::new("the text is no trace")),
    }
}

/// A trace of two phases.
const TRACE: &[u8] = b"pas 1 pages 4 threads 2 heaps 2 age 2\n\
shared 1\n\
a 1 7 1 5000 64\n\
phase\n\
f 2 7\n\
tick 5";

/// Whether it has this plan.
fn is_planned(plan: &Plan) -> bool {
    plan.profile.shared == 2
        && plan.total == 13
        && plan.bounds.as_slice() == [1, 7, 5].as_slice()
        && plan.phases.as_slice().len() == 2
}

#[test]
fn a_plan_is_made(rt: HostRuntime) -> Result<(), Fail> {
    assert!(rt; is_planned(&plan_of(rt.alloc(), TRACE)?));
    Ok(())
}

/// A block of heap 1 that is reallocated twice.
const MOVED_TWICE: &[u8] =
    b"pas 4 pages 4 threads 1 heaps 2 age 2\na 1 7 1 24 16\nm 1 8 7 40 16\nm 1 9 8 5000 64\n";

/// The second time.
const AGAIN: What = What::Remake {
    name: 9,
    old: 8,
    heap: 1,
    size: 5000,
    align: 64,
};

/// Whether the plan has the second reallocation in the block's own heap, and the records of an allocation and one more for each.
fn stays_in_heap(plan: &Plan) -> bool {
    plan.version == 4
        && plan.total == 13
        && match plan.phases.as_slice() {
            [phase] => match phase.as_slice() {
                [_, _, op] => op.what == AGAIN,
                _ => false,
            },
            _ => false,
        }
}

#[test]
fn a_reallocation_stays_in_its_heap(rt: HostRuntime) -> Result<(), Fail> {
    assert!(rt; stays_in_heap(&plan_of(rt.alloc(), MOVED_TWICE)?));
    Ok(())
}

/// Of two threads every second request for whole pages is guarded: thread 1's second and thread 2's second, of two pages.
const SAMPLED: &[u8] =
    b"pas 4 pages 9 threads 2 heaps 1 age 2\nguard 2\na 1 1 0 4096 16\na 2 2 0 24 16\na 1 3 0 4096 16\na 2 4 0 8192 16\na 2 5 0 5000 64\n";

/// What thread 2 asks for then, whose keeper is actor 4.
const KEPT: What = What::Guarded {
    keeper: 4,
    name: 5,
    heap: 0,
    size: 5000,
    align: 64,
};

/// Whether the last of the operations is that one, and only it and the third are guarded. The bounds go up to the keepers': a deed for each page, and one and
/// one for each page of a guarded block; a request for whole pages counts two more for its thread.
fn is_sampled(plan: &Plan) -> bool {
    plan.guard == 2
        && plan.bounds.as_slice() == [0, 17, 21, 11, 12].as_slice()
        && plan.total == 56
        && match plan.phases.as_slice() {
            [phase] => match phase.as_slice() {
                [first, _, third, fourth, last] => {
                    matches!(first.what, What::Alloc { .. })
                        && matches!(third.what, What::Guarded { keeper: 3, .. })
                        && matches!(fourth.what, What::Alloc { .. })
                        && last.what == KEPT
                }
                _ => false,
            },
            _ => false,
        }
}

#[test]
fn a_guarded_request_has_a_keeper(rt: HostRuntime) -> Result<(), Fail> {
    assert!(rt; is_sampled(&plan_of(rt.alloc(), SAMPLED)?));
    Ok(())
}

/// A request and its free with a size, behind a header of version 2.
const OF_SIXTEEN: &[u8] = b"pas 2 pages 4 threads 1 heaps 1 age 2\na 1 7 0 513 16\nfs 1 7 513 16\n";

/// The same behind one of version 3.
const OF_TWENTY: &[u8] = b"pas 3 pages 4 threads 1 heaps 1 age 2\na 1 7 0 513 16\nfs 1 7 513 16\n";

/// Whether the plan is of this version, has so many classes, and ends with a free that names the room.
fn frees_room(plan: &Plan, version: u8, classes: u8, room: u32) -> bool {
    plan.version == version
        && plan.profile.classes == classes
        && match plan.phases.as_slice() {
            [phase] => match phase.as_slice() {
                [_, op] => op.what == What::FreeSized { name: 7, room },
                _ => false,
            },
            _ => false,
        }
}

#[test]
fn a_free_names_the_room_of_its_version(rt: HostRuntime) -> Result<(), Fail> {
    assert!(rt; frees_room(&plan_of(rt.alloc(), OF_SIXTEEN)?, 2, 16, 528));
    assert!(rt; frees_room(&plan_of(rt.alloc(), OF_TWENTY)?, 3, 20, 640));
    Ok(())
}

/// Whether the text has a header of so many pages and threads, without shared heaps.
fn names_region(text: &[u8], pages: u32, threads: u8) -> bool {
    match header_of_text(text) {
        Some(header) => header.pages == pages && header.threads == threads && header.shared == 0,
        None => false,
    }
}

#[test]
fn the_first_line_names_the_region(rt: HostRuntime) {
    assert!(rt;
        names_region(
            b"pas 1 pages 4 threads 2 heaps 1 age 2\nshared 0\nno line\n",
            4,
            2
        )
    );
    assert!(rt; header_of_text(b"# pas\npas 1 pages 4 threads 2 heaps 1 age 2\n").is_none());
    assert!(rt; header_of_text(b"").is_none());
}
