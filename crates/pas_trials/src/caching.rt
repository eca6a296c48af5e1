//! A thread takes blocks from its cache and gives them up again.
ghost use Rattle.std.specs.Prelude.{ℕ, ◌≡◌, ◌+◌, ◌-◌, ◌^◌, ◌<◌, ◌≤◌, [], false, MatchResult};
ghost use Rattle.pas_bits.specs.Bits.{has_bit};
ghost use Rattle.pas_steps.specs.{Desks.{AnyView, CanCall}, Unknown.unknown_pages};
ghost use Rattle.pas_cache.specs.Caches.{cached, AtRest};

use pas_cache::ThreadCache;
use pas_profile::{Address, Block, Name, NoRoom, Word};
use pas_steps::Desk;

/// The name of the block, and that of no block where there is none.
fn name_of(answer: &Result<Block, NoRoom>) -> Name
    requires { MatchResult answer.now (λ block. block.name.turn < 2 ^ 37) (λ room. Unit {0}) }
    ensures { result.turn < 2 ^ 37 }
{
    match answer {
        Ok(block) => block.name,
        Err(_) => Name {
            address: Address(0),
            turn: 0,
        },
    }
}

/// Asks for two blocks of so many bytes, frees the first one, and stops the cache. At most five events, and one for the deed of each page.
pub fn borrow_two<D: Desk>(
    desk: &mut D,
    cache: &mut ThreadCache,
    size: u32,
) -> [Result<Block, NoRoom>; 2]
    requires exclusive { has_bit (D.standing desk.old).seat.profile.shared 0 ≡ false }
    requires size { size ≤ 2048 }
    requires none_logged { (cached cache.old).log ≡ [] }
    requires can { CanCall (D.standing desk.old) (λ v. AtRest (D.standing desk.old).seat.profile (cached cache.old) v × (5 + unknown_pages (D.standing desk.old).seat.profile v ≤ D.spare_of desk.old)) }
    ensures none_left { (cached cache.new).locals ≡ [] }
    ensures none_logged { (cached cache.new).log ≡ [] }
    ensures seat { (D.standing desk.new).seat ≡ (D.standing desk.old).seat }
    ensures rest { CanCall (D.standing desk.new) (AtRest (D.standing desk.new).seat.profile (cached cache.new)) }
    ensures room { (n : ℕ) → CanCall (D.standing desk.old) (λ v. AtRest (D.standing desk.old).seat.profile (cached cache.old) v × (n + 5 + unknown_pages (D.standing desk.old).seat.profile v ≤ D.spare_of desk.old))
        → CanCall (D.standing desk.new) (λ v. AtRest (D.standing desk.new).seat.profile (cached cache.new) v × (n + unknown_pages (D.standing desk.new).seat.profile v ≤ D.spare_of desk.new)) }
{
    let first = cache.alloc(desk, 0, size, 16);
    let second = cache.alloc(desk, 0, size, 16);
    let _ = cache.free(desk, name_of(&first));
    cache.stop(desk);
    [first, second]
}

/// The first and the last free word of page 1, and the words of page 1 among the offered pages of the second class and among the parked pages.
pub fn words_of_first<D: Desk>(desk: &mut D) -> [u64; 4]
    requires can { CanCall (D.standing desk.old) AnyView }
{
    [
        desk.look(Word::Free(1, 0)),
        desk.look(Word::Free(1, 3)),
        desk.look(Word::Eligible(1, 0)),
        desk.look(Word::Parked(0)),
    ]
}
