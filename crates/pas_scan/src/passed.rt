//! Pages are passed by at a desk that tells the whole state: looks at their words are told to it and not made.
ghost use Rattle.std.specs.Prelude.{ℕ, ◌≡◌, ◌≤◌, ◌<◌, ◌+◌, ◌*◌, ◌/◌, ◌%◌, ◌^◌, false, MatchOption};
ghost use Rattle.pas_bits.specs.Bits.{has_bit};
ghost use Rattle.pas_profile.specs.Profiles.{IsDirectoryOf};
ghost use Rattle.pas_steps.specs.Desks.{AnyView, CanCall};
ghost use Rattle.pas_scan.specs.Passed.{KnowsOthers, PassesDeeds, KnowsDeeds, KnowsHeldOnes, PassesHeld};

use pas_bits::page_vector::lowest_page;
use pas_profile::{Directory, Word, deed_word};
use pas_steps::Desk;

/// The lowest page from `from` to below `end` that has this deed word, and `end` where none has. `from` where the desk doesn't tell its words. No step is made.
fn first_with_deed<D: Desk>(desk: &D, from: u32, end: u32, deed: u64) -> u32
    requires from { (1 ≤ from) × (from ≤ end) }
    requires end { end ≤ (D.standing desk.now).seat.profile.pages + 1 }
    ensures { KnowsOthers D.tells (D.standing desk.now) deed from end result }
{
    for page in from..end {
        let Some(known) = desk.peek(Word::Deed(page)) else {
            return from;
        };
        if known == deed {
            return page;
        }
    }
    end
}

/// Passes pages by from `from` on, up to one that may have this deed word, below `end`: looks at the deed words of the others are told to the desk. The page
/// up to which pages were passed by: `from` where none was.
pub(crate) fn pass_deeds<D: Desk>(desk: &mut D, from: u32, end: u32, deed: u64) -> u32
    requires from { 1 ≤ from }
    requires end { end ≤ (D.standing desk.old).seat.profile.pages + 1 }
    requires can { CanCall (D.standing desk.old) AnyView }
    ensures passes { PassesDeeds deed from end (D.standing desk.old) (D.standing desk.new) result }
    ensures home { D.home desk.new ≡ D.home desk.old }
{
    if from >= end {
        return from;
    }
    let page = first_with_deed(desk, from, end, deed);
    if page == from {
        return from;
    }
    if !desk.tell((page - from) as u64) {
        return from;
    }
    page
}

/// The lowest page from `from` to below `end` that has another deed word than this one, and `end` where none has. None where the desk doesn't tell its
/// words. No step is made.
fn first_other_deed<D: Desk>(desk: &D, from: u32, end: u32, deed: u64) -> Option<u32>
    requires from { (1 ≤ from) × (from ≤ end) }
    requires end { end ≤ (D.standing desk.now).seat.profile.pages + 1 }
    ensures { MatchOption result (Unit {0}) (KnowsDeeds D.tells (D.standing desk.now) deed from end) }
{
    for page in from..end {
        let Some(known) = desk.peek(Word::Deed(page)) else {
            return None;
        };
        if known != deed {
            return Some(page);
        }
    }
    Some(end)
}

/// The lowest page from this one on that is offered by its block's word, or where none is the first page behind the block.
fn next_offered(offered: u64, page: u32) -> u32
    requires { page < 2 ^ 31 }
    ensures above { page ≤ result }
    ensures in_block { result ≤ 64 * (page / 64) + 64 }
    ensures none { (p : ℕ) → page ≤ p → p < result → has_bit offered (p % 64) ≡ false }
{
    match lowest_page(offered, page / 64, page) {
        Some(free) => free,
        None => 64 * (page / 64) + 64,
    }
}

/// The lowest page from `from` to below `end` that isn't known as one of the directory which isn't offered, and `end` where each is. `from` where the desk
/// doesn't tell its words. A block's pages are looked through at once. No step is made.
fn first_not_held<D: Desk>(desk: &D, from: u32, end: u32, directory: Directory) -> u32
    requires directory { IsDirectoryOf (D.standing desk.now).seat.profile directory }
    requires from { (1 ≤ from) × (from ≤ end) }
    requires end { end ≤ (D.standing desk.now).seat.profile.pages + 1 }
    ensures { KnowsHeldOnes D.tells (D.standing desk.now) directory from end result }
{
    let number = directory.number();
    let deed = deed_word(directory);
    let mut page = from;
    while page < end {
        let Some(offered) = desk.peek(Word::Eligible(number, page / 64)) else {
            return from;
        };
        let stop = next_offered(offered, page).min(end);
        let Some(other) = first_other_deed(desk, page, stop, deed) else {
            return from;
        };
        if other == page || other < stop {
            return other;
        }
        page = stop;
    }
    end
}

/// Passes pages of the directory by that aren't offered, from `from` on and below `end`: looks at the deed word and the eligible word of each are told to the
/// desk. The page up to which pages were passed by: `from` where none was.
pub(crate) fn pass_held<D: Desk>(desk: &mut D, from: u32, end: u32, directory: Directory) -> u32
    requires directory { IsDirectoryOf (D.standing desk.old).seat.profile directory }
    requires from { 1 ≤ from }
    requires end { end ≤ (D.standing desk.old).seat.profile.pages + 1 }
    requires can { CanCall (D.standing desk.old) AnyView }
    ensures passes { PassesHeld directory from end (D.standing desk.old) (D.standing desk.new) result }
    ensures home { D.home desk.new ≡ D.home desk.old }
{
    if from >= end {
        return from;
    }
    let page = first_not_held(desk, from, end, directory);
    if page == from {
        return from;
    }
    if !desk.tell(2 * (page - from) as u64) {
        return from;
    }
    page
}
