//! A source and a sink in memory, whose calls fail as they are told.
ghost use Rattle.std.specs.Prelude.{◌≤◌, vec_len};

use crate::reach::Reach;
use crate::schedule::Schedule;
use crate::unread::Unread;
use crate::{Failed, Sink, Source};

/// Bytes in memory, whose reads fail at listed calls.
#[derive(Drop)]
pub struct MemorySource {
    unread: Unread,
    schedule: Schedule,
    reach: Reach,
}

impl MemorySource {
    ghost use Rattle.std.specs.Prelude.{◌≡◌, Some};
    ghost use Rattle.pas_io.specs.declared.reach.Reach.TheVariants as Reach;

    /// A source of these bytes. The calls, counted from 1, whose numbers are listed fail; no byte is lost by that.
    pub fn new(bytes: Vec<u8>, fails: Vec<u64>) -> MemorySource
        ensures rest { ⟦<MemorySource as Source>⟧.rest result ≡ Some bytes.items }
        ensures faults { ⟦<MemorySource as Source>⟧.faults result ≡ 0 }
        ensures reach { ⟦<MemorySource as Source>⟧.reach result ≡ Reach.Within }
        ensures fails { result.schedule.fails ≡ fails }
        ensures calls { result.schedule.calls ≡ 0 }
    {
        MemorySource {
            unread: Unread::new(bytes),
            schedule: Schedule::new(fails),
            reach: Reach::Within,
        }
    }
}

impl Source for MemorySource {
    ghost use Rattle.std.specs.Prelude.{◌≡◌, ◌≤◌, ◌+◌, Some, length, IfOk, IsErr, OnErr, ◌↔◌};
    ghost use Rattle.pas_io.specs.{Told.{Rose, MovesTold}, Reached.{HasGone, HasRun}, Unread.left, Schedules.{CallFails, Called}};

    ghost rest = { λ s. Some (left s.unread) };

    ghost faults = { λ s. s.schedule.faults };

    ghost reach = { λ s. s.reach };

    fn read(&mut self, buffer: &mut [u8]) -> Result<usize, Failed>
        ensures fails { IsErr result ↔ CallFails self.old.schedule }
        ensures called { Called self.old.schedule self.new.schedule }
        ensures within { IfOk result (λ n. n ≤ length buffer.old) }
        ensures moves { IfOk result (λ n. MovesTold (Some (left self.old.unread)) (Some (left self.new.unread)) buffer.old buffer.new n) }
        ensures ends { IfOk result (HasRun self.old.reach self.new.reach buffer.old) }
        ensures goes { OnErr result (HasGone self.old.reach self.new.reach) }
        ensures keeps { OnErr result (Some (left self.new.unread) ≡ Some (left self.old.unread)) }
        ensures sound { IfOk result (λ n. self.new.schedule.faults ≡ self.old.schedule.faults) }
        ensures failed { OnErr result (Rose self.old.schedule.faults self.new.schedule.faults) }
        ensures count { self.old.schedule.faults ≤ self.new.schedule.faults }
        ensures once { self.new.schedule.faults ≤ self.old.schedule.faults + 1 }
    {
        if self.schedule.next_fails() {
            self.schedule.count_fault();
            self.reach = self.reach.after(false);
            return Err(Failed);
        }
        let has_place = !buffer.is_empty();
        let count = self.unread.fill(buffer);
        self.reach = self.reach.after(has_place && count == 0);
        Ok(count)
    }
}

/// Room in memory for a fixed number of bytes, whose writes fail at listed calls and where there is no more room.
#[derive(Drop)]
pub struct MemorySink {
    buffer: Vec<u8>,
    place: usize,
    most: u32,
    schedule: Schedule,
    ghost within: { place ≤ vec_len buffer },
    ghost some: { 1 ≤ most },
}

impl MemorySink {
    ghost use Rattle.std.specs.Prelude.{◌≡◌, Some, [], take};
    ghost use Rattle.pas_io.specs.Taken.{taken};

    /// A sink with room for as many bytes as the buffer is long, which takes at most `most` of them in a call. The calls, counted from 1,
    /// whose numbers are listed fail.
    pub fn new(buffer: Vec<u8>, most: u32, fails: Vec<u64>) -> MemorySink
        requires { 1 ≤ most }
        ensures held { taken result ≡ [] }
        ensures faults { ⟦<MemorySink as Sink>⟧.faults result ≡ 0 }
        ensures room { vec_len result.buffer ≡ vec_len buffer }
        ensures most { result.most ≡ most }
        ensures fails { result.schedule.fails ≡ fails }
        ensures calls { result.schedule.calls ≡ 0 }
    {
        MemorySink {
            buffer,
            place: 0,
            most,
            schedule: Schedule::new(fails),
        }
    }

    /// The bytes that it took, in order.
    pub fn held(&self) -> &[u8]
        ensures { result.now ≡ taken self.now }
    {
        &self.buffer[..self.place]
    }
}

impl Sink for MemorySink {
    ghost use Rattle.std.specs.Prelude.{◌≡◌, ◌≢◌, ◌≤◌, ◌<◌, ◌+◌, ◌-◌, ◌⊎◌, ◌↔◌, min, Some, [], take, length, vec_len, IfOk, IsErr, OnErr};
    ghost use Rattle.pas_io.specs.{Told.{Rose, Writes}, Taken.{taken, room_of}, Schedules.{CallFails, Called}};

    ghost held = { λ s. Some (taken s) };

    ghost faults = { λ s. s.schedule.faults };

    fn write(&mut self, bytes: &[u8]) -> Result<usize, Failed>
        ensures fails { IsErr result ↔ (CallFails self.old.schedule ⊎ ((bytes.now ≢ []) × (room_of self.old ≡ 0))) }
        ensures called { Called self.old.schedule self.new.schedule }
        ensures taken { IfOk result (λ n. n ≡ min (length bytes.now) (min (room_of self.old) self.old.most)) }
        ensures most { self.new.most ≡ self.old.most }
        ensures room { vec_len self.new.buffer ≡ vec_len self.old.buffer }
        ensures within { IfOk result (λ n. n ≤ length bytes.now) }
        ensures some { IfOk result (λ n. bytes.now ≢ [] → 1 ≤ n) }
        ensures writes { IfOk result (λ n. Writes (Some (taken self.old)) (Some (taken self.new)) (take n bytes.now)) }
        ensures keeps { OnErr result (Some (taken self.new) ≡ Some (taken self.old)) }
        ensures sound { IfOk result (λ n. self.new.schedule.faults ≡ self.old.schedule.faults) }
        ensures failed { OnErr result (Rose self.old.schedule.faults self.new.schedule.faults) }
        ensures count { self.old.schedule.faults ≤ self.new.schedule.faults }
        ensures once { self.new.schedule.faults ≤ self.old.schedule.faults + 1 }
    {
        let fails = self.schedule.next_fails();
        let room = self.buffer.len() - self.place;
        if fails || (room == 0 && !bytes.is_empty()) {
            self.schedule.count_fault();
            return Err(Failed);
        }
        let count = bytes.len().min(room).min(self.most as usize);
        let end = self.place + count;
        self.buffer[self.place..end].copy_from_slice(&bytes[..count]);
        self.place = end;
        Ok(count)
    }
}
