//! Reading a source piece by piece.
ghost use Rattle.std.specs.Prelude.{◌≡◌, ◌<◌, ◌≤◌, ◌+◌, ◌-◌, ◌^◌, ℕ, List, length, take, drop, IfOk, OnErr};
ghost use Rattle.pas_io.specs.{Told.Rose, Reached.StopsAtEnd, Inputs.{HasRead, Takes}};
ghost use Rattle.pas_io.specs.declared.reach.Reach.TheVariants as Reach;

use crate::{Failed, Source};
use std::alloc::AllocError;

/// Fills the buffer from the source, up to the buffer's end or the source's, where the bytes before `start` stand in it already. It
/// answers how many stand in it then.
pub fn fill<S: Source>(source: &mut S, buffer: &mut [u8], start: usize) -> Result<usize, Failed>
    requires { start ≤ length buffer.old }
    ensures within { IfOk result (λ n. n ≤ length buffer.old) }
    ensures reads { IfOk result (λ n. (told : List ℕ) → HasRead told (S.rest source.old) buffer.old start → HasRead told (S.rest source.new) buffer.new n) }
    ensures all { IfOk result (λ n. n < length buffer.old → (told : List ℕ) → HasRead told (S.rest source.old) buffer.old start → n ≡ length told) }
    ensures takes { (told : List ℕ) → HasRead told (S.rest source.old) buffer.old start → Takes told (S.rest source.new) (length buffer.old) }
    ensures stops { S.reach source.old ≡ Reach.Within → StopsAtEnd (S.reach source.new) }
    ensures goes { IfOk result (λ n. n ≡ length buffer.old → S.reach source.old ≡ Reach.Within → S.reach source.new ≡ Reach.Within) }
    ensures ends { IfOk result (λ n. n < length buffer.old → S.reach source.old ≡ Reach.Within → S.reach source.new ≡ Reach.AtEnd) }
    ensures sound { IfOk result (λ n. S.faults source.new ≡ S.faults source.old) }
    ensures stopped { OnErr result ((told : List ℕ) → HasRead told (S.rest source.old) buffer.old start → Takes told (S.rest source.new) (length buffer.old - 1)) }
    ensures failed { OnErr result (Rose (S.faults source.old) (S.faults source.new)) }
    ensures count { S.faults source.old ≤ S.faults source.new }
    ensures once { S.faults source.new ≤ S.faults source.old + 1 }
{
    let mut taken = start;
    while taken < buffer.len() {
        let count = source.read(&mut buffer[taken..])?;
        if count == 0 {
            return Ok(taken);
        }
        taken += count;
    }
    Ok(taken)
}

/// Lets go of the first bytes of a full buffer, and answers how many are left: they stand in its front then. Where none goes, the buffer grows to twice its size,
/// or to `most` + 1 bytes where that is less. On an error memory is wanting.
pub fn let_go(buffer: &mut Vec<u8>, gone: usize, most: usize) -> Result<usize, AllocError>
    requires within { gone ≤ length buffer.old.items }
    requires some { 0 < length buffer.old.items }
    requires short { length buffer.old.items ≤ most }
    requires small { most < 2 ^ 32 }
    ensures left { IfOk result (λ left. left + gone ≡ length buffer.old.items) }
    ensures front { IfOk result (λ left. take left buffer.new.items ≡ drop gone buffer.old.items) }
    ensures place { IfOk result (λ left. left < length buffer.new.items) }
    ensures short { IfOk result (λ left. length buffer.new.items ≤ most + 1) }
{
    let size = buffer.len();
    if gone == 0 {
        buffer.resize((2 * size).min(most + 1), 0)?;
        return Ok(size);
    }
    buffer.copy_within(gone..size, 0);
    Ok(size - gone)
}
