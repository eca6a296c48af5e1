//! Reading and writing whole texts.
ghost use Rattle.std.specs.Prelude.{◌≡◌, ◌<◌, ◌≤◌, ◌+◌, ◌^◌, ℕ, List, Some, IfOk, OnOk, OnErr, IsErrOf};
ghost use Rattle.pas_io.specs.{Told.{Rose, Writes, WritesFront}, Reached.StopsAtEnd, Inputs.{IsInput, IsReadOut, IsReadUp, IsShort, Takes}};
ghost use Rattle.pas_io.specs.declared.reach.Reach.TheVariants as Reach;

use crate::pieces::fill;
use crate::{Failed, Sink, Source};
use std::alloc::Global;

/// Writes all the bytes, in as many calls as the sink wants, up to its first fault. After a failure some first part of them was written.
pub fn write_all<K: Sink>(sink: &mut K, bytes: &[u8]) -> Result<(), Failed>
    ensures whole { OnOk result (Writes (K.held sink.old) (K.held sink.new) bytes.now) }
    ensures front { OnErr result (WritesFront (K.held sink.old) (K.held sink.new) bytes.now) }
    ensures sound { OnOk result (K.faults sink.new ≡ K.faults sink.old) }
    ensures failed { OnErr result (Rose (K.faults sink.old) (K.faults sink.new)) }
    ensures count { K.faults sink.old ≤ K.faults sink.new }
    ensures once { K.faults sink.new ≤ K.faults sink.old + 1 }
{
    let mut written = 0;
    while written < bytes.len() {
        written += sink.write(&bytes[written..])?;
    }
    Ok(())
}

/// What a source gave.
#[derive(Drop)]
pub enum Input {
    /// All its bytes, of which there are at most the limit.
    Whole(Vec<u8>),
    /// More bytes than the limit.
    TooLong,
}

/// Why a source wasn't read to its end.
#[derive(Clone, Copy, Debug, PartialEq, Eq, Drop)]
pub enum Stop {
    /// A read failed.
    Fault,
    /// Memory was wanting.
    Memory,
}

/// The size of the first buffer, unless the limit is less.
const FIRST_SIZE: usize = 65_536;

/// The size of the buffer after one that came full with so many bytes: a quarter and 64 KiB more, or a byte more than the limit where
/// that isn't less than the limit.
fn next_size(taken: usize, most: usize) -> usize
    requires within { taken ≤ most }
    requires most { most < 2 ^ 32 }
    ensures grows { taken < result }
    ensures within { result ≤ most + 1 }
{
    (taken + taken / 4 + FIRST_SIZE).min(most + 1)
}

/// Reads the source to its end, or up to `most + 1` bytes, or up to its first fault. The buffer starts with 64 KiB and grows by a quarter
/// and as much again as bytes come. Bytes that came before a fault, or before memory was wanting, are lost.
pub fn read_all<S: Source>(alloc: Global, source: &mut S, most: usize) -> Result<Input, Stop>
    requires { most < 2 ^ 32 }
    ensures input { IfOk result (λ input. (told : List ℕ) → S.rest source.old ≡ Some told → IsInput most told input) }
    ensures short { IfOk result (IsShort most) }
    ensures ended { IfOk result (λ input. (told : List ℕ) → S.rest source.old ≡ Some told → IsReadOut input (S.rest source.new)) }
    ensures stops { S.reach source.old ≡ Reach.Within → StopsAtEnd (S.reach source.new) }
    ensures ends { IfOk result (λ input. S.reach source.old ≡ Reach.Within → IsReadUp input (S.reach source.new)) }
    ensures takes { (told : List ℕ) → S.rest source.old ≡ Some told → Takes told (S.rest source.new) (most + 1) }
    ensures sound { IfOk result (λ input. S.faults source.new ≡ S.faults source.old) }
    ensures memory { IsErrOf result Stop.Memory → S.faults source.new ≡ S.faults source.old }
    ensures stopped { IsErrOf result Stop.Fault → (told : List ℕ) → S.rest source.old ≡ Some told → Takes told (S.rest source.new) most }
    ensures fault { IsErrOf result Stop.Fault → Rose (S.faults source.old) (S.faults source.new) }
    ensures count { S.faults source.old ≤ S.faults source.new }
    ensures once { S.faults source.new ≤ S.faults source.old + 1 }
{
    let mut buffer = Vec::new(alloc);
    let mut taken = 0;
    while taken == buffer.len() && taken <= most {
        let Ok(()) = buffer.resize(next_size(taken, most), 0) else {
            return Err(Stop::Memory);
        };
        match fill(source, &mut buffer, taken) {
            Ok(count) => taken = count,
            Err(Failed) => return Err(Stop::Fault),
        }
    }
    if taken > most {
        return Ok(Input::TooLong);
    }
    buffer.truncate(taken);
    Ok(Input::Whole(buffer))
}
