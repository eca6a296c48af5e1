//! The two parts of an input of a check.
ghost use Rattle.std.specs.Prelude.{◌≡◌, ◌+◌, ◌≤◌, length};
ghost use Rattle.pas_check.specs.Inputs.{is_mark, trace_in, transcript_in};

use crate::cutting::first_line;

/// The parts of an input of a check: the trace, and the transcript that is to be judged.
#[derive(Clone, Copy, Drop)]
pub struct Parts<'a> {
    pub trace: &'a [u8],
    pub transcript: &'a [u8],
}

/// Whether the line is exactly `transcript`. The last line of a text may lack its newline.
fn is_mark_line(line: &[u8]) -> bool
    ensures { result ≡ is_mark line.now }
{
    line == b"transcript\n".as_slice() || line == b"transcript".as_slice()
}

/// The trace of an input, which is what stands in front of its first line that is exactly `transcript`, and the transcript, which is what stands behind that
/// line. Where there is no such line the whole input is the trace, and the transcript is empty. One pass over the trace, without a copy.
pub fn split(input: &[u8]) -> Parts<'_>
    ensures trace { result.trace.now ≡ trace_in input.now }
    ensures transcript { result.transcript.now ≡ transcript_in input.now }
    ensures within { length result.trace.now + length result.transcript.now ≤ length input.now }
{
    let mut place = 0;
    while let Some(count) = first_line(&input[place..]) {
        let end = place + count;
        if is_mark_line(&input[place..end]) {
            return Parts {
                trace: &input[..place],
                transcript: &input[end..],
            };
        }
        place = end;
    }
    Parts {
        trace: &input[..place],
        transcript: &input[place..],
    }
}
