//! How long a thread was idle.
ghost use Rattle.std.specs.Prelude.{◌↔◌, ◌+◌, ◌≤◌, IsTrue};
ghost use Rattle.pas_cache.specs.Caches.{cached};

use pas_cache::ThreadCache;

/// Whether the thread of this cache was idle for so many epochs, now that it is this one: the epoch that the cache read last stands at least so many
/// before this one. Any numbers may be asked of. No step.
pub fn is_idle_for(cache: &ThreadCache, epochs: u64, epoch: u64) -> bool
    ensures { IsTrue result ↔ ((cached cache.now).idle_since + epochs ≤ epoch) }
{
    let since = cache.idle_since();
    since <= epoch && epochs <= epoch - since
}
