//! Reading a source for the script of its text, of which a piece alone is kept.
ghost use Rattle.std.specs.Prelude.{◌≡◌, ◌+◌, ℕ, List, [], Some, IfOk, MatchResult, IsErrOf, length};
ghost use Rattle.pas_io.specs.{Inputs.Takes, Told.Rose, Reached.StopsAtEnd};
ghost use Rattle.pas_io.specs.declared.reach.Reach.TheVariants as Reach;
ghost use Rattle.pas_trace.specs.Scripts.{IsScripting};
ghost use Rattle.pas_calls.specs.{Givens.{IsGiven, IsGivenBy, IsOver}, Outputs.most_bytes};

use pas_io::pieces::{fill, let_go};
use pas_io::whole::Stop;
use pas_io::{Failed, Source};
use pas_profile::limits::MOST_BYTES;
use pas_trace::{ReadFault, Script, ScriptReader, TraceFault};
use std::alloc::{AllocError, Global};

/// What a source gave.
#[derive(Drop)]
pub(crate) enum Given {
    /// A trace, and this is its script.
    Trace(Script),
    /// The first fault of a text that is none.
    Faulty(TraceFault),
    /// More bytes than an input may have.
    TooLong,
}

/// The bytes of a piece. Only a line that is longer has a larger buffer.
const PIECE: usize = 65_536;

/// A buffer of so many bytes. Its length is all that is said of it, since a proof that sees the bytes of a piece lays each of them out.
fn buffer_of(alloc: Global, size: usize) -> Result<Vec<u8>, AllocError>
    ensures { IfOk result (λ buffer. length buffer.items ≡ size) }
{
    vec![in alloc; 0u8; size]
}

/// What a text gives that was read to its end.
fn given_by(read: Result<Script, ReadFault>) -> Result<Given, Stop>
    ensures { MatchResult result (λ given. (text : List ℕ) → IsScripting text read → IsGivenBy text given) (λ stop. stop ≡ Stop.Memory) }
{
    match read {
        Ok(script) => Ok(Given::Trace(script)),
        Err(ReadFault::Trace(fault)) => Ok(Given::Faulty(fault)),
        Err(ReadFault::NoMemory) => Err(Stop::Memory),
    }
}

/// Reads the source to its end, or up to a byte more than an input may have, or up to its first fault. Of the text a piece alone is kept. Behind a fault
/// of the text, and where memory was wanting for its script, it reads on: a read that fails, and too long a text, come before these.
pub(crate) fn read_given<S: Source>(alloc: Global, source: &mut S) -> Result<Given, Stop>
    ensures given { IfOk result (IsGiven (S.rest source.old)) }
    ensures ended { IfOk result (λ given. IsOver given → (told : List ℕ) → S.rest source.old ≡ Some told → S.rest source.new ≡ Some []) }
    ensures stops { S.reach source.old ≡ Reach.Within → StopsAtEnd (S.reach source.new) }
    ensures ends { IfOk result (λ given. IsOver given → S.reach source.old ≡ Reach.Within → S.reach source.new ≡ Reach.AtEnd) }
    ensures takes { (told : List ℕ) → S.rest source.old ≡ Some told → Takes told (S.rest source.new) (most_bytes + 1) }
    ensures sound { IfOk result (λ given. S.faults source.new ≡ S.faults source.old) }
    ensures memory { IsErrOf result Stop.Memory → S.faults source.new ≡ S.faults source.old }
    ensures stopped { IsErrOf result Stop.Fault → (told : List ℕ) → S.rest source.old ≡ Some told → Takes told (S.rest source.new) most_bytes }
    ensures fault { IsErrOf result Stop.Fault → Rose (S.faults source.old) (S.faults source.new) }
{
    let Ok(mut buffer) = buffer_of(alloc, PIECE) else {
        return Err(Stop::Memory);
    };
    let mut reader = ScriptReader::new(alloc);
    let mut taken = 0;
    let mut kept = 0;
    'pieces: loop {
        buffer.truncate(MOST_BYTES + 1 - taken);
        let count = match fill(source, &mut buffer, kept) {
            Ok(count) => count,
            Err(Failed) => return Err(Stop::Fault),
        };
        if taken + count > MOST_BYTES {
            return Ok(Given::TooLong);
        }
        if count < buffer.len() {
            return given_by(reader.finish(&buffer[..count]));
        }
        let (next, gone) = reader.take(&buffer);
        let Ok(left) = let_go(&mut buffer, gone, MOST_BYTES) else {
            return Err(Stop::Memory);
        };
        reader = next;
        taken += gone;
        kept = left;
    }
}
