//! A thread takes a block from its cache, and ends it by its room.
ghost use Rattle.std.specs.Prelude.{◌≡◌, ◌+◌, ◌≤◌, false};
ghost use Rattle.pas_bits.specs.Bits.{has_bit};
ghost use Rattle.pas_steps.specs.{Desks.{AnyView, CanCall}, Unknown.unknown_pages};
ghost use Rattle.pas_cache.specs.Caches.{cached, AtRest};

use pas_cache::ThreadCache;
use pas_profile::{Address, Block, Name, NoRoom, Word};
use pas_steps::Desk;

/// The first block of page 1.
const NAME: Name = Name {
    address: Address(4096),
    turn: 0,
};

/// Reads the epoch, and ends the first block of page 1 by a room of 48 bytes, of 32 and of 48 once more. The life words that the three ends read.
pub fn end_by_rooms<D: Desk>(desk: &mut D) -> [u64; 3]
    requires can { CanCall (D.standing desk.old) AnyView }
    requires room { 3 ≤ D.spare_of desk.old }
{
    desk.look(Word::Epoch);
    [
        desk.end_sized(NAME, 48),
        desk.end_sized(NAME, 32),
        desk.end_sized(NAME, 48),
    ]
}

/// Takes a block of 24 bytes from the cache, and ends the first block of page 1 by three rooms.
pub fn borrow_and_end<D: Desk>(
    desk: &mut D,
    cache: &mut ThreadCache,
) -> (Result<Block, NoRoom>, [u64; 3])
    requires exclusive { has_bit (D.standing desk.old).seat.profile.shared 0 ≡ false }
    requires can { CanCall (D.standing desk.old) (λ v. AtRest (D.standing desk.old).seat.profile (cached cache.old) v × (5 + unknown_pages (D.standing desk.old).seat.profile v ≤ D.spare_of desk.old)) }
{
    let block = cache.alloc(desk, 0, 24, 16);
    (block, end_by_rooms(desk))
}
