//! The sheets on which the lines of a round are made.
ghost use Rattle.std.specs.Prelude.{◌≡◌, ◌≤◌, ◌+◌, ◌++◌, [], length, vec_len, vec_capacity};
ghost use Rattle.pas_records.specs.declared.sheets.TheConstants.{SHEETS, SHEET_BYTES};

use crate::text::LINE_BYTES;
use pas_profile::NoMemory;
use std::alloc::Global;

/// How many sheets are filled at once.
pub(crate) const SHEETS: usize = 16;

/// The most records of a sheet.
pub(crate) const SHEET_RECORDS: usize = 2048;

/// The most records of a round.
pub(crate) const ROUND_RECORDS: usize = SHEETS * SHEET_RECORDS;

/// The bytes of a sheet: the lines of its records fit. Most lines are shorter by far, and memory that they don't need isn't touched.
pub(crate) const SHEET_BYTES: usize = LINE_BYTES * SHEET_RECORDS;

/// A text for the lines of some records in a row.
#[derive(Drop)]
pub(crate) struct Sheet {
    pub(crate) text: Vec<u8>,
    ghost room: { SHEET_BYTES ≤ vec_capacity text },
}

impl Sheet {
    /// A sheet without a line, or `NoMemory` where memory was wanting.
    fn try_new(alloc: Global) -> Result<Sheet, NoMemory> {
        let Ok(text) = Vec::with_capacity(alloc, SHEET_BYTES) else {
            return Err(NoMemory);
        };
        Ok(Sheet { text })
    }

    /// Takes all lines off.
    pub(crate) fn clear(&mut self)
        ensures { self.new.text.items ≡ [] }
    {
        self.text.clear();
    }

    /// Adds a line. It takes no memory.
    pub(crate) fn push(&mut self, line: &[u8])
        requires { vec_len self.old.text + length line.now ≤ SHEET_BYTES }
        ensures { self.new.text.items ≡ self.old.text.items ++ line.now }
    {
        let Ok(()) = self.text.extend_from_slice(line) else {
            unreachable!();
        };
    }
}

/// The sheets of a round.
#[derive(Drop)]
pub(crate) struct Batch {
    pub(crate) sheets: Vec<Sheet>,
    ghost all: { vec_len sheets ≡ SHEETS },
}

impl Batch {
    /// Sheets without a line, or `NoMemory` where memory was wanting.
    fn try_new(alloc: Global) -> Result<Batch, NoMemory> {
        let Ok(mut sheets) = Vec::with_capacity(alloc, SHEETS) else {
            return Err(NoMemory);
        };
        for _ in 0..SHEETS {
            sheets.push_reserved(Sheet::try_new(alloc)?);
        }
        Ok(Batch { sheets })
    }
}

/// Two sets of sheets, one of which is written while the other is filled: room for 8 MB, which is taken once, touched as far as lines need it, and serves every
/// call of `write_lines_on`.
#[derive(Drop)]
pub struct Sheets {
    /// The lines of the round that is written next.
    pub(crate) full: Batch,
    /// The sheets of the round after it.
    pub(crate) next: Batch,
}

impl Sheets {
    /// Sheets without a line, or `NoMemory` where memory was wanting. The memory is first touched as it is needed.
    pub fn try_new(alloc: Global) -> Result<Sheets, NoMemory> {
        let full = Batch::try_new(alloc)?;
        let next = Batch::try_new(alloc)?;
        Ok(Sheets { full, next })
    }
}
