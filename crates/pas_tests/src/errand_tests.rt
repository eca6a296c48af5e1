//! An own errand against foreign ones, in storms at each own step number in turn.

use crate::storm_turns::{Found, Spoil, storm};
use pas_trials::{Errand, Visit};
use std::alloc::Global;
use std::test::Fail;

/// Requests of heap 0: a slot of 512 bytes of an exclusive page, a bit-fit block, one page and two pages.
pub const SLOT: Errand = Errand::Ask {
    heap: 0,
    size: 512,
    align: 16,
};

const BITFIT: Errand = Errand::Ask {
    heap: 0,
    size: 1040,
    align: 16,
};

const PAGE: Errand = Errand::Ask {
    heap: 0,
    size: 4096,
    align: 16,
};

const PAGES: Errand = Errand::Ask {
    heap: 0,
    size: 8192,
    align: 16,
};

/// Requests of heap 1: slots of 512 and of 48 bytes of a shared page.
const SHARED: Errand = Errand::Ask {
    heap: 1,
    size: 512,
    align: 16,
};

const SMALL: Errand = Errand::Ask {
    heap: 1,
    size: 48,
    align: 16,
};

/// The ends of the first block of page 1, of what begins at its first three and at all eight slots of 512 bytes, and of two blocks of 1,040 bytes.
pub const FIRST: Errand = Errand::Free {
    first: 4096,
    gap: 512,
    blocks: 1,
};

const EIGHT: Errand = Errand::Free {
    first: 4096,
    gap: 512,
    blocks: 8,
};

const THREE: Errand = Errand::Free {
    first: 4096,
    gap: 512,
    blocks: 3,
};

const FITS: Errand = Errand::Free {
    first: 4096,
    gap: 1040,
    blocks: 2,
};

const AGE: Errand = Errand::Age { epoch: 7 };

const STOP: Errand = Errand::Stop;

const PASS: Errand = Errand::Pass;

/// The foreign errands: requests with a stop, flushes, and a pass. The pass finds old pages where the epoch was raised before.
const FOREIGN: [Errand; 10] = [
    SLOT, SHARED, SMALL, BITFIT, PAGE, PAGES, FIRST, EIGHT, FITS, PASS,
];

/// Each own errand has at least so many storms: ten foreign errands in four ways at ten own steps.
const LEAST: u64 = 400;

/// What sweeps found: how many storms there were, and whether in each the guest acted and nothing was wrong afterwards.
#[derive(Clone, Copy, Drop)]
struct Swept {
    storms: u64,
    is_sound: bool,
}

/// At which own steps the guest visits from this one on: at one, at two next to each other, at each third of six, at all.
fn visits(alloc: Global, way: u8, at: u64, errand: Errand) -> Result<Vec<Visit>, Fail> {
    let (visits, gap) = match way {
        0 => (1u64, 1u64),
        1 => (2, 1),
        2 => (6, 3),
        _ => (60, 1),
    };
    let mut list = Vec::new(alloc);
    for number in 0..visits {
        let at = at.saturating_add(gap.saturating_mul(number));
        list.push(Visit { at, errand })?;
    }
    Ok(list)
}

impl Swept {
    /// Nothing was swept yet.
    fn none() -> Swept {
        Swept {
            storms: 0,
            is_sound: true,
        }
    }

    /// One storm more.
    fn count(&mut self, found: &Found) {
        self.storms = self.storms.saturating_add(1);
        if found.visits == 0 || found.foreign_steps == 0 || found.fault.is_some() {
            self.is_sound = false;
        }
    }

    /// Storms the own errand with one foreign errand in one way, from each own step number in turn until the own actor makes no such step.
    fn sweep_way(
        &mut self,
        alloc: Global,
        before: &[Errand],
        errand: Errand,
        foreign: Errand,
        way: u8,
    ) -> Result<(), Fail> {
        for at in 1..64u64 {
            let visits = visits(alloc, way, at, foreign)?;
            let found = storm(alloc, 3, before, errand, visits, Spoil::Nothing)?;
            if at > found.steps {
                return Ok(());
            }
            self.count(&found);
        }
        Ok(())
    }

    /// Storms the own errand, after the errands before it, with each foreign errand in four ways.
    fn sweep(&mut self, alloc: Global, before: &[Errand], errand: Errand) -> Result<(), Fail> {
        for number in 0..10 {
            for way in 0..4u8 {
                self.sweep_way(alloc, before, errand, FOREIGN[number], way)?;
            }
        }
        Ok(())
    }

    /// Whether nothing was wrong, and so many own errands had storms enough.
    fn stands(&self, errands: u64) -> bool {
        self.is_sound && self.storms / LEAST >= errands
    }
}

#[test]
fn refills_of_exclusive_pages(rt: HostRuntime) -> Result<(), Fail> {
    let mut swept = Swept::none();
    let aged = [SLOT, SLOT, FIRST, STOP, AGE];
    swept.sweep(rt.alloc(), &[], SLOT)?;
    swept.sweep(rt.alloc(), &aged, SLOT)?;
    swept.sweep(rt.alloc(), &[SLOT; 8], SLOT)?;
    assert!(rt; swept.stands(3));
    Ok(())
}

#[test]
fn refills_of_shared_pages(rt: HostRuntime) -> Result<(), Fail> {
    let mut swept = Swept::none();
    let stopped = [SHARED, SMALL, FIRST, STOP];
    swept.sweep(rt.alloc(), &[], SHARED)?;
    swept.sweep(rt.alloc(), &stopped, SHARED)?;
    assert!(rt; swept.stands(2));
    Ok(())
}

#[test]
fn bit_fit_requests(rt: HostRuntime) -> Result<(), Fail> {
    let mut swept = Swept::none();
    swept.sweep(rt.alloc(), &[], BITFIT)?;
    swept.sweep(rt.alloc(), &[BITFIT; 3], BITFIT)?;
    assert!(rt; swept.stands(2));
    Ok(())
}

#[test]
fn large_requests(rt: HostRuntime) -> Result<(), Fail> {
    let mut swept = Swept::none();
    swept.sweep(rt.alloc(), &[], PAGES)?;
    swept.sweep(rt.alloc(), &[PAGES, FIRST], PAGES)?;
    assert!(rt; swept.stands(2));
    Ok(())
}

#[test]
fn stops_of_caches(rt: HostRuntime) -> Result<(), Fail> {
    let mut swept = Swept::none();
    swept.sweep(rt.alloc(), &[SLOT; 8], STOP)?;
    swept.sweep(rt.alloc(), &[SLOT, SLOT], STOP)?;
    swept.sweep(rt.alloc(), &[SLOT, FIRST], STOP)?;
    swept.sweep(rt.alloc(), &[SHARED, SMALL], STOP)?;
    assert!(rt; swept.stands(4));
    Ok(())
}

#[test]
fn flushes_of_logs(rt: HostRuntime) -> Result<(), Fail> {
    let mut swept = Swept::none();
    let stopped = [SLOT, SLOT, SLOT, STOP];
    swept.sweep(rt.alloc(), &[SLOT, STOP, AGE], FIRST)?;
    swept.sweep(rt.alloc(), &stopped, THREE)?;
    swept.sweep(rt.alloc(), &[PAGES], FIRST)?;
    swept.sweep(rt.alloc(), &[BITFIT; 3], FITS)?;
    assert!(rt; swept.stands(4));
    Ok(())
}

#[test]
fn passes(rt: HostRuntime) -> Result<(), Fail> {
    let mut swept = Swept::none();
    swept.sweep(rt.alloc(), &[SLOT, FIRST, AGE], PASS)?;
    swept.sweep(rt.alloc(), &[SLOT, FIRST], PASS)?;
    assert!(rt; swept.stands(2));
    Ok(())
}
