//! Requests: their alignments, how many records one may make, and what it is in a plan.
ghost use Rattle.std.specs.Prelude.{◌≡◌, ◌≤◌, ◌^◌, if◌then◌else◌, Some, None};
ghost use Rattle.pas_trace.specs.{Reasons.{cost_of_size, cost_of_request, is_alignment}, Plans.request_kept};

use crate::plan::What;
use pas_profile::limits::{GRAIN_BYTES, MOST_BITFIT, PAGE_BYTES};

/// Whether the alignment is a power of two from 16 to 4,096: a divisor of 4,096 is a power of two. Nearly every one is 16, which needs no division.
#[inline(always)]
pub(crate) fn is_aligning(align: u64) -> bool
    ensures { result ≡ is_alignment align }
{
    align == GRAIN_BYTES as u64
        || align > GRAIN_BYTES as u64
            && align <= PAGE_BYTES as u64
            && PAGE_BYTES % align as u32 == 0
}

/// How many records an allocation of so many bytes may make, in a region of whatever classes: 2, or one and one for each whole page.
#[inline(always)]
pub(crate) fn cost_of_allocation(size: u32) -> u32
    requires { size ≤ 2 ^ 26 }
    ensures value { result ≡ cost_of_size size }
    ensures few { result ≤ 16385 }
{
    if size <= MOST_BITFIT {
        2
    } else {
        1 + (size + (PAGE_BYTES - 1)) / PAGE_BYTES
    }
}

/// .. in a trace whose `guard` line has this number, 0 where there is none: two more for whole pages in a guarded one.
#[inline(always)]
pub(crate) fn cost_of_request(guard: u32, size: u32) -> u32
    requires { size ≤ 2 ^ 26 }
    ensures value { result ≡ cost_of_request guard size }
    ensures few { result ≤ 16387 }
{
    let plain = cost_of_allocation(size);
    if size <= MOST_BITFIT {
        return plain;
    }
    if guard == 0 {
        return plain;
    }
    plain + 2
}

/// A request in a plan, whose guard the keeper keeps, if it is guarded.
#[inline(always)]
pub(crate) fn request_kept(
    guarded: bool,
    keeper: u8,
    name: u32,
    heap: u8,
    size: u32,
    align: u32,
) -> What
    ensures { result ≡ request_kept (if guarded then Some keeper else None) name heap size align }
{
    if guarded {
        What::Guarded {
            keeper,
            name,
            heap,
            size,
            align,
        }
    } else {
        What::Alloc {
            name,
            heap,
            size,
            align,
        }
    }
}
