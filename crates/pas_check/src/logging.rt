//! The logs of the threads.
ghost use Rattle.std.specs.Prelude.{ℕ, ◌≡◌, ◌≢◌, ◌+◌, ◌*◌, ◌<◌, ◌≤◌, [], ◌∷◌, ◌++◌, length, nat_le, slice_index, vec_len, IfOk};

use pas_profile::{Address, Entry, Name, NoMemory};
use std::alloc::Global;

/// The frees of each thread since its log was emptied last, at most 64, in order. Those of thread k stand from the place 64 k on.
#[derive(Drop)]
pub(crate) struct Logs {
    entries: Vec<Entry>,
    counts: Vec<u8>,
    ghost sized: { vec_len entries ≡ 64 * vec_len counts },
    ghost few: { (k : ℕ) → slice_index counts.items k ≤ 64 },
}

impl Logs {
    ghost use Rattle.pas_check.specs.Tables.{logged, logs_held};

    /// So many empty logs. Takes 1.5 KB for each.
    pub(crate) fn try_new(alloc: Global, count: u8) -> Result<Logs, NoMemory>
        ensures empty { IfOk result (λ logs. (k : ℕ) → logged logs k ≡ []) }
        ensures held { IfOk result (λ logs. logs_held logs ≡ count) }
    {
        let name = Name {
            address: Address(0),
            turn: 0,
        };
        let Ok(entries) = vec![in alloc; Entry { name, room: 0 }; 64 * count as usize] else {
            return Err(NoMemory);
        };
        let Ok(counts) = vec![in alloc; 0u8; count as usize] else {
            return Err(NoMemory);
        };
        Ok(Logs { entries, counts })
    }

    /// Whether the thread's log has 64 entries.
    pub(crate) fn is_full(&self, k: u8) -> bool
        requires { k < logs_held self.now }
        ensures { result ≡ nat_le 64 (length (logged self.now k)) }
    {
        self.counts[k as usize] >= 64
    }

    /// The thread's log.
    pub(crate) fn log(&self, k: u8) -> &[Entry]
        requires { k < logs_held self.now }
        ensures { result.now ≡ logged self.now k }
    {
        let first = 64 * k as usize;
        &self.entries[first..first + self.counts[k as usize] as usize]
    }

    /// Adds the entry to the thread's log, which isn't full.
    pub(crate) fn add(&mut self, k: u8, entry: Entry)
        requires held { k < logs_held self.old }
        requires room { length (logged self.old k) < 64 }
        ensures added { logged self.new k ≡ logged self.old k ++ entry ∷ [] }
        ensures others { (j : ℕ) → j ≢ k → logged self.new j ≡ logged self.old j }
        ensures held { logs_held self.new ≡ logs_held self.old }
    {
        let count = self.counts[k as usize];
        self.entries[64 * k as usize + count as usize] = entry;
        self.counts[k as usize] = count + 1;
    }

    /// Empties the thread's log.
    pub(crate) fn clear(&mut self, k: u8)
        requires { k < logs_held self.old }
        ensures cleared { logged self.new k ≡ [] }
        ensures others { (j : ℕ) → j ≢ k → logged self.new j ≡ logged self.old j }
        ensures held { logs_held self.new ≡ logs_held self.old }
    {
        self.counts[k as usize] = 0;
    }
}
