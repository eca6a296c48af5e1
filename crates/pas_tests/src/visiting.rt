//! The visits of an intruder, by a seed.

use pas_trials::{Errand, Visit};
use std::alloc::{AllocError, Global};

/// Requests of heap 0: a slot, a bit-fit block, one page and two pages.
const SLOT: Errand = Errand::Ask {
    heap: 0,
    size: 512,
    align: 16,
};

const BITFIT: Errand = Errand::Ask {
    heap: 0,
    size: 1040,
    align: 16,
};

const PAGE: Errand = Errand::Ask {
    heap: 0,
    size: 4096,
    align: 16,
};

const PAGES: Errand = Errand::Ask {
    heap: 0,
    size: 8192,
    align: 16,
};

/// The ends of what begins on each of the first twelve pages, the blocks of guards too, and at the slots of page 1.
const ALL: Errand = Errand::Free {
    first: 4096,
    gap: 4096,
    blocks: 12,
};

const SLOTS: Errand = Errand::Free {
    first: 4096,
    gap: 512,
    blocks: 8,
};

/// The next number of a row of numbers below 2^31.
fn next(number: u64) -> u64 {
    number.wrapping_mul(1_103_515_245).wrapping_add(12_345) % 2_147_483_648
}

/// One of the errands. The epoch is raised to that of the step.
fn errand_of(number: u64, at: u64) -> Errand {
    match number / 65_536 % 9 {
        0 => SLOT,
        1 => BITFIT,
        2 => PAGE,
        3 => PAGES,
        4 => ALL,
        5 => SLOTS,
        6 => Errand::Age { epoch: at },
        7 => Errand::Pass,
        _ => ALL,
    }
}

/// So many visits, each so many own steps after the one before it.
pub fn visits_of(alloc: Global, seed: u64, many: u64, gap: u64) -> Result<Vec<Visit>, AllocError> {
    let mut list = Vec::new(alloc);
    let mut number = next(seed);
    for place in 0..many {
        let at = gap.wrapping_mul(place).wrapping_add(1);
        number = next(number);
        list.push(Visit {
            at,
            errand: errand_of(number, at),
        })?;
    }
    Ok(list)
}
