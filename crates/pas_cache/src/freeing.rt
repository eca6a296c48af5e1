//! Names are logged, and the log is flushed.
ghost use Rattle.std.specs.Prelude.{◌≡◌, ◌<◌, ◌≤◌, MatchResult, length, nat_le};
ghost use Rattle.pas_steps.specs.{Desks.CanCall, Clear.IsClear};
ghost use Rattle.pas_free_log.specs.Logs.{entries_in};
ghost use Rattle.pas_cache.specs.Names.{IsInRegion, IsFaultOf, MayFlush, EmptiesWhere, LogsInto};

use crate::cache::ThreadCache;
use arrayvec::ArrayVec;
use pas_free_log::{EndedRun, FreeLog, flush};
use pas_profile::limits::{GRAIN_BYTES, MOST_LOGGED, PAGE_BYTES};
use pas_profile::{Entry, FreeFault, Name, Profile};
use pas_steps::Desk;

/// Whether the address is a multiple of 16 on a page of the region.
fn check(profile: &Profile, name: Name) -> Result<(), FreeFault>
    ensures { MatchResult result (λ done. IsInRegion profile.now name) (IsFaultOf profile.now name) }
{
    let page = name.address.0 / PAGE_BYTES;
    if page < 1 || page > profile.pages {
        return Err(FreeFault::Outside);
    }
    if name.address.0 % GRAIN_BYTES != 0 {
        return Err(FreeFault::Unaligned);
    }
    Ok(())
}

/// Flushes the log where it is full.
fn make_room<D: Desk>(desk: &mut D, log: &mut FreeLog, noted: &mut ArrayVec<EndedRun, MOST_LOGGED>)
    requires room { 64 ≤ length (entries_in log.old) → length (entries_in log.old) ≤ D.spare_of desk.old }
    requires can { CanCall (D.standing desk.old) (MayFlush (D.standing desk.old).seat.profile (entries_in log.old)) }
    ensures empties { EmptiesWhere (nat_le 64 (length (entries_in log.old))) (entries_in log.old) (entries_in log.new) noted.old.items noted.new.items (D.standing desk.old) (D.standing desk.new) }
    ensures left { length (entries_in log.new) < 64 }
    ensures home { D.home desk.new ≡ D.home desk.old }
{
    if log.len() as usize >= MOST_LOGGED {
        flush(desk, log, noted);
    }
}

/// Adds the entry at the end of the log, and flushes a full one before.
fn log_entry<D: Desk>(
    desk: &mut D,
    log: &mut FreeLog,
    noted: &mut ArrayVec<EndedRun, MOST_LOGGED>,
    entry: Entry,
)
    requires room { 64 ≤ length (entries_in log.old) → length (entries_in log.old) ≤ D.spare_of desk.old }
    requires can { CanCall (D.standing desk.old) (MayFlush (D.standing desk.old).seat.profile (entries_in log.old)) }
    ensures logs { LogsInto (entries_in log.old) (entries_in log.new) noted.old.items noted.new.items entry (D.standing desk.old) (D.standing desk.new) }
    ensures home { D.home desk.new ≡ D.home desk.old }
{
    make_room(desk, log, noted);
    log.push(entry);
}

impl ThreadCache {
    ghost use Rattle.std.specs.Prelude.{◌≡◌, ◌<◌, ◌≤◌, ◌-◌, ◌*◌, ◌%◌, ◌^◌, ◌+◌, length};
    ghost use Rattle.pas_profile.specs.Entries.{entry_of, sized_entry};
    ghost use Rattle.pas_steps.specs.Desks.{CanCall};
    ghost use Rattle.pas_cache.specs.{Caches.{cached, seat_of, AtRest}, Calls.{Frees, FlushesLog}};

    /// Logs the name of a block that is freed; its block ends at the next flush. A log of 64 names is flushed first, and otherwise no step is
    /// made.
    ///
    /// `Outside` exactly where the page of the address isn't one of the region, else `Unaligned` exactly where the address isn't a multiple of
    /// 16. Nothing is logged then and no step is made. Where 64 names are logged, there is room for 64 events.
    pub fn free<D: Desk>(&mut self, desk: &mut D, name: Name) -> Result<(), FreeFault>
        requires turn { name.turn < 2 ^ 40 - 1 }
        requires room { length (cached self.old).log ≡ 64 → 64 ≤ D.spare_of desk.old }
        requires can { CanCall (D.standing desk.old) (AtRest (D.standing desk.old).seat.profile (cached self.old)) }
        ensures frees { Frees (entry_of name) (cached self.old) (cached self.new) (D.standing desk.old) (D.standing desk.new) result }
        ensures actor { seat_of self.new ≡ seat_of self.old }
        ensures home { D.home desk.new ≡ D.home desk.old }
    {
        self.free_entry(desk, Entry { name, room: 0 })
    }

    /// The same of a block that the caller believes to have this room, a multiple of 16: at the flush its block ends where it has it.
    pub fn free_sized<D: Desk>(
        &mut self,
        desk: &mut D,
        name: Name,
        room: u32,
    ) -> Result<(), FreeFault>
        requires turn { name.turn < 2 ^ 40 - 1 }
        requires size { (room % 16 ≡ 0) × (16 ≤ room) × (room ≤ 4096 * (D.standing desk.old).seat.profile.pages) }
        requires room { length (cached self.old).log ≡ 64 → 64 ≤ D.spare_of desk.old }
        requires can { CanCall (D.standing desk.old) (AtRest (D.standing desk.old).seat.profile (cached self.old)) }
        ensures frees { Frees (sized_entry name room) (cached self.old) (cached self.new) (D.standing desk.old) (D.standing desk.new) result }
        ensures actor { seat_of self.new ≡ seat_of self.old }
        ensures home { D.home desk.new ≡ D.home desk.old }
    {
        self.free_entry(desk, Entry { name, room })
    }

    fn free_entry<D: Desk>(&mut self, desk: &mut D, entry: Entry) -> Result<(), FreeFault>
        requires turn { entry.name.turn < 2 ^ 40 - 1 }
        requires size { (entry.room % 16 ≡ 0) × (entry.room ≤ 4096 * (D.standing desk.old).seat.profile.pages) }
        requires room { length (cached self.old).log ≡ 64 → 64 ≤ D.spare_of desk.old }
        requires can { CanCall (D.standing desk.old) (AtRest (D.standing desk.old).seat.profile (cached self.old)) }
        ensures frees { Frees entry (cached self.old) (cached self.new) (D.standing desk.old) (D.standing desk.new) result }
        ensures actor { seat_of self.new ≡ seat_of self.old }
        ensures home { D.home desk.new ≡ D.home desk.old }
    {
        if let Err(fault) = check(desk.profile(), entry.name) {
            return Err(fault);
        }
        log_entry(desk, &mut self.log, &mut self.noted, entry);
        Ok(())
    }

    /// Reads the epoch, and ends the blocks of the logged names in order. The log is empty afterwards. The runs of large blocks that ended are noted
    /// for the next `settle`, while fewer than 64 are.
    ///
    /// Each name makes one event, and there is room for them: `End` with the epoch that was read, or `Reject` where no block of this name lives. One
    /// step, and at most three for each name and fourteen for each page of its block.
    pub fn flush<D: Desk>(&mut self, desk: &mut D)
        requires room { length (cached self.old).log ≤ D.spare_of desk.old }
        requires can { CanCall (D.standing desk.old) (AtRest (D.standing desk.old).seat.profile (cached self.old)) }
        ensures flushes { FlushesLog (cached self.old) (cached self.new) (D.standing desk.old) (D.standing desk.new) }
        ensures spare { D.spare_of desk.new + length (cached self.old).log ≡ D.spare_of desk.old }
        ensures actor { seat_of self.new ≡ seat_of self.old }
        ensures home { D.home desk.new ≡ D.home desk.old }
    {
        flush(desk, &mut self.log, &mut self.noted);
    }
}
