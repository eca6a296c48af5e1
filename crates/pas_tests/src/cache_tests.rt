//! A cache over a plain desk.
ghost use Rattle.std.specs.Prelude.{ℕ, ◌≡◌, ◌+◌, ◌≤◌, ◌<◌, [], false};
ghost use Rattle.pas_bits.specs.Bits.{has_bit};
ghost use Rattle.pas_steps.specs.{Desks.CanCall, Unknown.unknown_pages};
ghost use Rattle.pas_cache.specs.Caches.{cached, AtRest};

use crate::seating::{cache_for, large_profile, plain_profile};
use pas_cache::ThreadCache;
use pas_plain::beside;
use pas_profile::classes::class_size;
use pas_profile::*;
use pas_steps::Desk;
use pas_trials::{borrow_two, words_of_first};
use std::test::Fail;

/// The block of 32 bytes at this address of page 1.
fn block(address: u32) -> Block {
    Block {
        name: Name {
            address: Address(address),
            turn: 0,
        },
        room: 32,
        heap: 0,
    }
}

/// Whether the answers are the first two blocks of page 1.
fn are_first_two(blocks: &[Result<Block, NoRoom>; 2]) -> bool {
    blocks[0] == Ok(block(4096)) && blocks[1] == Ok(block(4128))
}

/// Whether the events are the deed of page 1, its backing, two blocks, and the end of the first one.
fn are_of_two_blocks(shown: &[Event]) -> bool {
    let directory = Directory {
        heap: 0,
        kind: Kind::Class(1),
    };
    let events = [
        Event::Deed {
            actor: 1,
            page: 1,
            directory,
        },
        Event::Back { actor: 1, page: 1 },
        Event::Give {
            actor: 1,
            block: block(4096),
        },
        Event::Give {
            actor: 1,
            block: block(4128),
        },
        Event::End {
            actor: 1,
            name: block(4096).name,
            epoch: 0,
        },
    ];
    shown == events.as_slice()
}

#[test]
fn a_cache_gives_slots_of_one_page_and_leaves_it_offered(rt: HostRuntime) -> Result<(), Fail> {
    let (mut desk, _) = beside(rt.alloc(), plain_profile(2), 16)?;
    let mut cache = cache_for(rt.alloc(), plain_profile(2))?;
    let blocks = borrow_two(&mut desk, &mut cache, 24);
    assert!(rt; are_first_two(&blocks));
    assert!(rt; are_of_two_blocks(desk.shown()));
    assert!(rt; words_of_first(&mut desk) == [!0b1100, u64::MAX, 2, 0]);
    Ok(())
}

/// The slot of this number on the page that the class got, given for so many times before.
fn slot(class: u8, number: u32, turn: u64) -> Block
    requires { class < 20 }
{
    let room = class_size(class);
    let page = (class as u32 + 1) * 4096;
    Block {
        name: Name {
            address: Address(page.saturating_add(room.saturating_mul(number))),
            turn,
        },
        room,
        heap: 0,
    }
}

/// Whether the answers are these blocks.
fn are(answers: &[Result<Block, NoRoom>; 2], first: Block, second: Block) -> bool {
    answers[0] == Ok(first) && answers[1] == Ok(second)
}

/// Two blocks of the class, of which the first one ends, and then two more. Whether the class got the page of its number, whose first slot is given again after
/// the page was left, and then the slot past that of the block that lives.
fn serves_class<D: Desk>(desk: &mut D, cache: &mut ThreadCache, class: u8) -> bool
    requires class { class < 20 }
    requires exclusive { has_bit (D.standing desk.old).seat.profile.shared 0 ≡ false }
    requires none_logged { (cached cache.old).log ≡ [] }
    requires can { CanCall (D.standing desk.old) (λ v. AtRest (D.standing desk.old).seat.profile (cached cache.old) v × (10 + unknown_pages (D.standing desk.old).seat.profile v ≤ D.spare_of desk.old)) }
    ensures none_logged { (cached cache.new).log ≡ [] }
    ensures seat { (D.standing desk.new).seat ≡ (D.standing desk.old).seat }
    ensures room { (n : ℕ) → CanCall (D.standing desk.old) (λ v. AtRest (D.standing desk.old).seat.profile (cached cache.old) v × (n + 10 + unknown_pages (D.standing desk.old).seat.profile v ≤ D.spare_of desk.old))
        → CanCall (D.standing desk.new) (λ v. AtRest (D.standing desk.new).seat.profile (cached cache.new) v × (n + unknown_pages (D.standing desk.new).seat.profile v ≤ D.spare_of desk.new)) }
{
    let size = class_size(class);
    let before = borrow_two(desk, cache, size);
    let again = borrow_two(desk, cache, size);
    let is_first = are(&before, slot(class, 0, 0), slot(class, 1, 0));
    let is_next = are(&again, slot(class, 0, 1), slot(class, 2, 0));
    is_first & is_next
}

/// Whether each class in turn is served by a page of its own.
fn serves_each_class<D: Desk>(desk: &mut D, cache: &mut ThreadCache) -> bool
    requires exclusive { has_bit (D.standing desk.old).seat.profile.shared 0 ≡ false }
    requires none_logged { (cached cache.old).log ≡ [] }
    requires can { CanCall (D.standing desk.old) (λ v. AtRest (D.standing desk.old).seat.profile (cached cache.old) v × (200 + unknown_pages (D.standing desk.old).seat.profile v ≤ D.spare_of desk.old)) }
{
    for class in 0..20u8 {
        if !serves_class(desk, cache, class) {
            return false;
        }
    }
    true
}

#[test]
fn a_region_of_twenty_classes_serves_each(rt: HostRuntime) -> Result<(), Fail> {
    let (mut desk, _) = beside(rt.alloc(), large_profile(), 17_000)?;
    let mut cache = cache_for(rt.alloc(), large_profile())?;
    assert!(rt; serves_each_class(&mut desk, &mut cache));
    Ok(())
}
