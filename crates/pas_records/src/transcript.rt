//! The lines of a replay's records, written to a sink.
ghost use Rattle.std.specs.Prelude.{◌≡◌, ◌≤◌, ◌+◌, ℕ, List, Option, All, OnOk, OnErr};
ghost use Rattle.arrayvec.specs.ArrayString.{array_string_len};
ghost use Rattle.pas_io.specs.Told.{Rose, Writes, WritesFront};
ghost use Rattle.pas_records.specs.{Lines.{CanShow, lines_of}, Pieces.IsPutOut};

use crate::lines::push_record;
use crate::record::Record;
use crate::text::{LINE_BYTES, Lines};
use pas_io::whole::write_all;
use pas_io::{Failed, Sink};

/// Writes the lines that wait where there is no room for one more.
pub fn make_room<K: Sink>(sink: &mut K, lines: &mut Lines) -> Result<(), Failed>
    ensures keeps { OnOk result ((before : Option (List ℕ)) (text : List ℕ) → IsPutOut before (K.held sink.old) lines.old.bytes text → IsPutOut before (K.held sink.new) lines.new.bytes text) }
    ensures room { OnOk result (array_string_len lines.new + 128 ≤ 65536) }
    ensures front { OnErr result ((before : Option (List ℕ)) (text : List ℕ) → IsPutOut before (K.held sink.old) lines.old.bytes text → WritesFront before (K.held sink.new) text) }
    ensures sound { OnOk result (K.faults sink.new ≡ K.faults sink.old) }
    ensures failed { OnErr result (Rose (K.faults sink.old) (K.faults sink.new)) }
    ensures count { K.faults sink.old ≤ K.faults sink.new }
{
    if lines.remaining_capacity() < LINE_BYTES {
        write_all(sink, lines.as_str().as_bytes())?;
        lines.clear();
    }
    Ok(())
}

/// Writes the line of each record, in order, some 64 KB at a time. It takes no memory. After a failure some first part of the lines was
/// written.
pub fn write_lines<K: Sink>(records: &[Record], sink: &mut K) -> Result<(), Failed>
    requires { All CanShow records.now }
    ensures whole { OnOk result (Writes (K.held sink.old) (K.held sink.new) (lines_of records.now)) }
    ensures front { OnErr result (WritesFront (K.held sink.old) (K.held sink.new) (lines_of records.now)) }
    ensures sound { OnOk result (K.faults sink.new ≡ K.faults sink.old) }
    ensures failed { OnErr result (Rose (K.faults sink.old) (K.faults sink.new)) }
    ensures count { K.faults sink.old ≤ K.faults sink.new }
{
    let mut lines = Lines::new();
    write_lines_by(&mut lines, records, sink)
}

/// The same by the lines of the caller, who writes more than once: they are emptied first, and what they hold in the end says nothing.
#[inline(never)]
pub fn write_lines_by<K: Sink>(
    lines: &mut Lines,
    records: &[Record],
    sink: &mut K,
) -> Result<(), Failed>
    requires { All CanShow records.now }
    ensures whole { OnOk result (Writes (K.held sink.old) (K.held sink.new) (lines_of records.now)) }
    ensures front { OnErr result (WritesFront (K.held sink.old) (K.held sink.new) (lines_of records.now)) }
    ensures sound { OnOk result (K.faults sink.new ≡ K.faults sink.old) }
    ensures failed { OnErr result (Rose (K.faults sink.old) (K.faults sink.new)) }
    ensures count { K.faults sink.old ≤ K.faults sink.new }
{
    lines.clear();
    for item in records {
        make_room(sink, lines)?;
        push_record(lines, item);
    }
    write_all(sink, lines.as_str().as_bytes())
}
