//! A storm: each thread asks its own cache for blocks and frees them, on the same few pages, as fast as it can.
ghost use Rattle.std.specs.Prelude.{◌≡◌, ◌≤◌, ◌<◌, true};
ghost use Rattle.pas_cache.specs.Caches.{cached};
ghost use Rattle.pas_trials.specs.SharedStorms.{IsWorking};

use pas_cache::ThreadCache;
use pas_profile::Name;
use pas_steps::Desk;

/// The blocks that a thread has at a time.
pub const BLOCKS: usize = 8;

/// A thread in a storm: its blocks, the sizes that it asks for, its own numbers, and how many requests were served.
#[derive(Drop)]
pub struct Storm {
    pub blocks: [Option<Name>; BLOCKS],
    pub sizes: [u32; 3],
    pub numbers: u64,
    pub served: u64,
}

/// The next of a thread's numbers.
fn next(numbers: u64) -> u64 {
    numbers
        .wrapping_mul(6364136223846793005)
        .wrapping_add(1442695040888963407)
}

/// Whether there is room for so many more events, in a room for `room` in all, at a desk that forgot none.
pub fn has_room<D: Desk>(desk: &D, cache: &ThreadCache, room: usize, events: usize) -> bool
    requires working { IsWorking (D.standing desk.now) (cached cache.now) room (D.forgotten (D.home desk.now)) }
    ensures { result ≡ true → events ≤ D.spare_of desk.now }
{
    let _ = cache;
    let shown = desk.shown().len();
    shown <= room && events <= room - shown
}

/// One request, of at most 2,048 bytes. None where it was refused, or where there may be no room for its events.
pub fn ask_once<D: Desk>(
    desk: &mut D,
    cache: &mut ThreadCache,
    room: usize,
    size: u32,
) -> Option<Name>
    requires size { size ≤ 2048 }
    requires working { IsWorking (D.standing desk.old) (cached cache.old) room (D.forgotten (D.home desk.old)) }
    ensures working { IsWorking (D.standing desk.new) (cached cache.new) room (D.forgotten (D.home desk.new)) }
    ensures home { D.home desk.new ≡ D.home desk.old }
{
    if !has_room(desk, cache, room, 3) {
        return None;
    }
    match cache.alloc(desk, 0, size, 16) {
        Ok(block) => Some(block.name),
        Err(_) => None,
    }
}

/// One free, where the name is one that can be freed and there is room for the events of a full log.
pub fn free_once<D: Desk>(desk: &mut D, cache: &mut ThreadCache, room: usize, name: Name)
    requires working { IsWorking (D.standing desk.old) (cached cache.old) room (D.forgotten (D.home desk.old)) }
    ensures working { IsWorking (D.standing desk.new) (cached cache.new) room (D.forgotten (D.home desk.new)) }
    ensures home { D.home desk.new ≡ D.home desk.old }
{
    if name.turn < 1 << 37 && has_room(desk, cache, room, 64) {
        let _ = cache.free(desk, name);
    }
}

/// Stops the cache, where there is room for the events of a full log. Whether it was stopped.
pub fn stop_once<D: Desk>(desk: &mut D, cache: &mut ThreadCache, room: usize) -> bool
    requires working { IsWorking (D.standing desk.old) (cached cache.old) room (D.forgotten (D.home desk.old)) }
    ensures working { IsWorking (D.standing desk.new) (cached cache.new) room (D.forgotten (D.home desk.new)) }
    ensures home { D.home desk.new ≡ D.home desk.old }
{
    if !has_room(desk, cache, room, 64) {
        return false;
    }
    cache.stop(desk);
    true
}

impl Storm {
    /// A thread without blocks, whose numbers begin with this one, that asks for blocks of these sizes, each taken as at
    /// most 2,048 bytes.
    pub fn new(numbers: u64, sizes: [u32; 3]) -> Storm {
        Storm {
            blocks: [None; BLOCKS],
            sizes,
            numbers,
            served: 0,
        }
    }

    /// Frees one of the blocks, or asks for one in its place, of one of the sizes. Now and then the cache is stopped instead.
    fn turn<D: Desk>(&mut self, desk: &mut D, cache: &mut ThreadCache, room: usize)
        requires working { IsWorking (D.standing desk.old) (cached cache.old) room (D.forgotten (D.home desk.old)) }
        ensures working { IsWorking (D.standing desk.new) (cached cache.new) room (D.forgotten (D.home desk.new)) }
        ensures home { D.home desk.new ≡ D.home desk.old }
    {
        self.numbers = next(self.numbers);
        let drawn = self.numbers >> 33;
        if drawn % 512 == 0 {
            stop_once(desk, cache, room);
            return;
        }
        let at = (drawn % 8) as usize;
        let size = self.sizes[((drawn >> 3) % 3) as usize].min(2048);
        match self.blocks[at] {
            Some(name) => {
                free_once(desk, cache, room, name);
                self.blocks[at] = None;
            }
            None => {
                let got = ask_once(desk, cache, room, size);
                self.served = self.served.saturating_add(got.is_some() as u64);
                self.blocks[at] = got;
            }
        }
    }

    /// Frees all blocks and stops the cache. Whether it was stopped.
    fn end<D: Desk>(&mut self, desk: &mut D, cache: &mut ThreadCache, room: usize) -> bool
        requires working { IsWorking (D.standing desk.old) (cached cache.old) room (D.forgotten (D.home desk.old)) }
        ensures working { IsWorking (D.standing desk.new) (cached cache.new) room (D.forgotten (D.home desk.new)) }
        ensures home { D.home desk.new ≡ D.home desk.old }
    {
        for at in 0..BLOCKS {
            if let Some(name) = self.blocks[at] {
                free_once(desk, cache, room, name);
            }
        }
        stop_once(desk, cache, room)
    }

    /// So many turns, and the end. Whether the cache was stopped, and the actor has nothing.
    pub fn run<D: Desk>(
        &mut self,
        desk: &mut D,
        cache: &mut ThreadCache,
        room: usize,
        turns: u64,
    ) -> bool
        requires working { IsWorking (D.standing desk.old) (cached cache.old) room (D.forgotten (D.home desk.old)) }
        ensures home { D.home desk.new ≡ D.home desk.old }
    {
        for _turn in 0..turns {
            self.turn(desk, cache, room);
        }
        self.end(desk, cache, room)
    }
}
