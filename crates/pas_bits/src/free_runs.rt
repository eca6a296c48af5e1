//! The free runs of a page, one after the other.
ghost use Rattle.std.specs.Prelude.{◌≤◌, MatchOption};
ghost use Rattle.pas_bits.specs.{Masks.is_set, Runs.{HasNoRunFrom, IsNextRun}};

use crate::mask::Mask4;

/// A run of set bits that is part of no longer one: the first bit, 0 to 255, and how many there are, 1 to 256.
#[derive(Clone, Copy, PartialEq, Eq)]
pub struct FreeRun {
    pub first: u8,
    pub length: u16,
}

impl Mask4 {
    /// The lowest run of set bits that begins at or after `from`, which is at most 256: with all of its bits, and no run that began before `from`.
    /// None exactly where none begins there. Moves the mask once, and looks at each word at most twice.
    pub fn next_run(&self, from: u16) -> Option<FreeRun>
        requires { from ≤ 256 }
        ensures { MatchOption result (HasNoRunFrom (is_set self.now) from) (IsNextRun (is_set self.now) from) }
    {
        // A run begins where the bit below is clear.
        let starts = self.both(&self.moved_up(1).complement());
        let first = starts.first_set_from(from)?;
        let end = self.run_end(first as u16);
        Some(FreeRun {
            first,
            length: end - first as u16,
        })
    }
}
