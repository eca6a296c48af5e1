//! The runs of large blocks that ended.
ghost use Rattle.std.specs.Prelude.{◌≡◌, ◌++◌, ◌-◌, length, take, option_to_list};
ghost use Rattle.pas_free_log.specs.Noted.{large_run as the_large_run};

use arrayvec::ArrayVec;
use pas_profile::limits::{MOST_LOGGED, PAGE_BYTES, PAGE_GRAINS};
use pas_profile::{Directory, Kind, Name, Range};

/// The pages of a large block that ended, and the heap that they are of.
#[derive(Clone, Copy, PartialEq, Eq, Drop)]
pub struct EndedRun {
    pub heap: u8,
    pub range: Range,
}

impl Default for EndedRun {
    ghost use Rattle.std.specs.Prelude.{◌≡◌};

    ghost is_default = { λ run. (run.heap ≡ 0) × (run.range.first ≡ 1) × (run.range.pages ≡ 1) };

    /// Page 1 of heap 0.
    fn default() -> EndedRun {
        EndedRun {
            heap: 0,
            range: Range { first: 1, pages: 1 },
        }
    }
}

/// The heap and the pages of a block of so many grains that ended, which began on a page of the directory. None where it isn't a large block:
/// its page is one of large blocks, and it begins with a page and ends with one.
pub(crate) fn large_run(name: Name, grains: u32, directory: Option<Directory>) -> Option<EndedRun>
    ensures { result ≡ the_large_run name grains directory }
{
    if name.address.0 % PAGE_BYTES != 0 || grains % PAGE_GRAINS != 0 {
        return None;
    }
    let Some(
        Directory {
            heap,
            kind: Kind::Large,
        },
    ) = directory
    else {
        return None;
    };
    let range = Range {
        first: name.address.0 / PAGE_BYTES,
        pages: grains / PAGE_GRAINS,
    };
    Some(EndedRun { heap, range })
}

/// Adds the run at the end, where there is one and fewer than 64 are there.
pub(crate) fn note(ended: &mut ArrayVec<EndedRun, MOST_LOGGED>, run: Option<EndedRun>)
    ensures { ended.new.items ≡ ended.old.items ++ take (64 - length ended.old.items) (option_to_list run) }
{
    let Some(run) = run else {
        return;
    };
    if !ended.is_full() {
        ended.push(run);
    }
}
