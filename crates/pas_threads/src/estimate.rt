//! What is likely to stand in a text, by a look at some of it.
ghost use Rattle.std.specs.Prelude.{◌<◌, IfSome};

use pas_profile::limits::MOST_THREADS;

/// In how many places a text is looked at.
const SAMPLES: usize = 64;

/// How many bytes are looked at in each of them.
const SAMPLE_BYTES: usize = 1_024;

/// How often each is likely to stand in a text.
#[derive(Clone, Copy, Drop)]
pub struct Estimate {
    pub lines: usize,
    /// Lines that begin with an `a` or an `m`, and so give a name.
    pub names: usize,
    /// Requests, frees and reallocations of each thread, by its number. None of number 0.
    pub by_actor: [usize; MOST_THREADS as usize + 1],
}

/// The value of a digit.
fn digit(byte: Option<&u8>) -> Option<usize>
    ensures { IfSome result (λ value. value < 10) }
{
    match byte {
        Some(byte) if byte.is_ascii_digit() => Some((*byte - b'0') as usize),
        _ => None,
    }
}

/// The thread of a line that begins as a request, a free or a reallocation does, or 0: the number behind its first word.
fn thread_in(line: &[u8]) -> usize {
    let (tens, ones) = match (line.first(), line.get(1), line.get(2)) {
        (Some(b'a' | b'f' | b'm' | b'r'), Some(b' '), first) => (digit(first), digit(line.get(3))),
        (Some(b'f' | b'r'), Some(b's'), Some(b' ')) => (digit(line.get(3)), digit(line.get(4))),
        _ => (None, None),
    };
    match (tens, ones) {
        (Some(tens), Some(ones)) => 10 * tens + ones,
        (Some(ones), None) => ones,
        _ => 0,
    }
}

impl Estimate {
    /// One line more.
    fn count(&mut self, line: &[u8]) {
        self.lines = self.lines.saturating_add(1);
        if matches!(line.first(), Some(b'a' | b'm')) {
            self.names = self.names.saturating_add(1);
        }
        let thread = thread_in(line);
        if thread == 0 {
            return;
        }
        if let Some(lines) = self.by_actor.get_mut(thread) {
            *lines = lines.saturating_add(1);
        }
    }

    /// Each `whole / part` times as often.
    fn scaled(self, whole: usize, part: usize) -> Estimate {
        let scale = |count: usize| count.saturating_mul(whole) / part.max(1);
        Estimate {
            lines: scale(self.lines),
            names: scale(self.names),
            by_actor: self.by_actor.map(scale),
        }
    }

    /// What is likely to stand in this text, by 1 KB in each of some 64 places. The lines of a text of at most 64 KB are all counted.
    pub fn of(text: &[u8]) -> Estimate {
        let mut seen = Estimate {
            lines: 0,
            names: 0,
            by_actor: [0; MOST_THREADS as usize + 1],
        };
        let mut looked: usize = 0;
        for part in text.chunks((text.len() / SAMPLES).max(SAMPLE_BYTES)) {
            let sample = &part[..part.len().min(SAMPLE_BYTES)];
            looked = looked.saturating_add(sample.len());
            for line in sample.split(|byte| *byte == b'\n').skip(1) {
                seen.count(line);
            }
        }
        seen.scaled(text.len(), looked)
    }
}
