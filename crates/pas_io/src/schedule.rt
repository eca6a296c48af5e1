//! Calls that fail on purpose.
ghost use Rattle.std.specs.Prelude.{◌≡◌, ◌≤◌, ◌+◌, ◌↔◌, IsTrue};
ghost use Rattle.pas_io.specs.{Told.Rose, Schedules.{CallFails, Called}};

/// Which calls fail: those whose numbers, counted from 1, are listed. It counts the calls and their failures, up to 2^64 - 1 each.
#[derive(Drop)]
pub(crate) struct Schedule {
    pub(crate) fails: Vec<u64>,
    pub(crate) calls: u64,
    pub(crate) faults: u64,
}

impl Schedule {
    pub(crate) fn new(fails: Vec<u64>) -> Schedule
        ensures fails { result.fails ≡ fails }
        ensures calls { result.calls ≡ 0 }
        ensures faults { result.faults ≡ 0 }
    {
        Schedule {
            fails,
            calls: 0,
            faults: 0,
        }
    }

    /// Counts a call, and answers whether it is to fail.
    pub(crate) fn next_fails(&mut self) -> bool
        ensures fails { IsTrue result ↔ CallFails self.old }
        ensures called { Called self.old self.new }
        ensures faults { self.new.faults ≡ self.old.faults }
    {
        self.calls = self.calls.saturating_add(1);
        self.fails.contains(&self.calls)
    }

    /// Counts a failure.
    pub(crate) fn count_fault(&mut self)
        ensures rose { Rose self.old.faults self.new.faults }
        ensures count { self.old.faults ≤ self.new.faults }
        ensures once { self.new.faults ≤ self.old.faults + 1 }
        ensures fails { self.new.fails ≡ self.old.fails }
        ensures calls { self.new.calls ≡ self.old.calls }
    {
        self.faults = self.faults.saturating_add(1);
    }
}
