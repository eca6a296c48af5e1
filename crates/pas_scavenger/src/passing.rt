//! A pass over all pages that are hinted as empty.
ghost use Rattle.std.specs.{Prelude.{◌≡◌, ◌≤◌, ◌<◌, ◌+◌, ◌-◌, ◌*◌, length, reverse}, List.flat_map};
ghost use Rattle.pas_profile.specs.Profiles.{IsPage, vector_words};
ghost use Rattle.pas_steps.specs.{Clear.HasNothing, Desks.CanCall};
ghost use Rattle.pas_utility.specs.Outcomes.{pairs_in, places_of};
ghost use Rattle.pas_scavenger.specs.Passes.{IsReady, TriesPage, ReadsWord, Passes, unbacks_in};

use crate::examining::examine;
use pas_bits::page_vector::{has_page, lowest_page};
use pas_profile::Word;
use pas_steps::Desk;
use pas_utility::Outcomes;

/// Clears the page's empty bit, and examines the page where it was still set. At most 38 steps, and one event.
fn try_page<D: Desk>(desk: &mut D, page: u32, epoch: u64, out: &mut Outcomes)
    requires page { IsPage (D.standing desk.old).seat.profile page }
    requires can { CanCall (D.standing desk.old) (IsReady epoch) }
    requires room { 1 ≤ D.spare_of desk.old }
    requires place { length (pairs_in out.old) < places_of out.old }
    ensures tries { TriesPage page epoch (D.standing desk.old) (D.standing desk.new) (pairs_in out.old) (pairs_in out.new) }
    ensures places { places_of out.new ≡ places_of out.old }
    ensures home { D.home desk.new ≡ D.home desk.old }
{
    let old = desk.unhint(page);
    if has_page(old, page) {
        let outcome = examine(desk, page, epoch);
        out.push((page, outcome));
    }
}

/// Reads one empty word, and tries each page whose bit is set there, the lowest first.
fn read_word<D: Desk>(desk: &mut D, block: u32, epoch: u64, out: &mut Outcomes)
    requires block { block < vector_words (D.standing desk.old).seat.profile.pages }
    requires can { CanCall (D.standing desk.old) (IsReady epoch) }
    requires room { (D.standing desk.old).seat.profile.pages ≤ D.spare_of desk.old + (64 * block - 1) }
    requires few { length (pairs_in out.old) ≤ 64 * block - 1 }
    requires places { places_of out.old ≡ (D.standing desk.old).seat.profile.pages }
    ensures reads { ReadsWord block epoch (D.standing desk.old) (D.standing desk.new) (pairs_in out.old) (pairs_in out.new) }
    ensures room { (D.standing desk.old).seat.profile.pages ≤ D.spare_of desk.new + (64 * block + 63) }
    ensures few { length (pairs_in out.new) ≤ 64 * block + 63 }
    ensures places { places_of out.new ≡ places_of out.old }
    ensures home { D.home desk.new ≡ D.home desk.old }
{
    let hinted = desk.look(Word::Empty(block));
    let mut next = 64 * block;
    'pages: while let Some(page) = lowest_page(hinted, block, next) {
        try_page(desk, page, epoch, out);
        next = page + 1;
    }
}

/// A pass of the scavenger: pages that were empty for long enough are given back. Answers the epoch that it read.
///
/// The empty words are read in order, each once. For each bit that is set there, the lowest first, the bit is cleared, and where it was still
/// set the page has one outcome in `out`. One step, one for each empty word, and at most 38 for each page that was read as hinted. Each
/// page that is unbacked makes one event.
pub fn pass<D: Desk>(desk: &mut D, out: &mut Outcomes) -> u64
    requires can { CanCall (D.standing desk.old) HasNothing }
    requires room { (D.standing desk.old).seat.profile.pages ≤ D.spare_of desk.old }
    requires places { places_of out.old ≡ (D.standing desk.old).seat.profile.pages }
    ensures passes { Passes (D.standing desk.old) (D.standing desk.new) result (pairs_in out.new) }
    ensures spare { D.spare_of desk.new + length (unbacks_in (D.standing desk.old).seat.actor result (reverse (pairs_in out.new))) ≡ D.spare_of desk.old }
    ensures places { places_of out.new ≡ places_of out.old }
    ensures home { D.home desk.new ≡ D.home desk.old }
{
    out.clear();
    let epoch = desk.look(Word::Epoch);
    let words = desk.profile().pages / 64 + 1;
    for block in 0..words {
        read_word(desk, block, epoch, out);
    }
    epoch
}
