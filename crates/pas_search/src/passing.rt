//! Pages on which nothing fits are passed by where the desk tells the whole state: their visits are told to it and not made.
ghost use Rattle.std.specs.Prelude.{ℕ, ◌≡◌, ◌≤◌, ◌<◌, ◌/◌, ◌*◌, ◌+◌, ◌^◌, ◌≢◌, ◌&&◌, nat_lt, not, true, MatchOption};
ghost use Rattle.pas_bits.specs.Bits.{has_bit};
ghost use Rattle.pas_profile.specs.Profiles.{IsDirectoryOf, IsPage};
ghost use Rattle.pas_steps.specs.{Told.StandsStill, Desks.{AnyView, CanCall}};
ghost use Rattle.pas_search.specs.Passing.{MayPass, PassesPages, passed_steps};

use crate::placing::LeastRun;
use crate::serving::Serving;
use pas_profile::{Directory, Word};
use pas_scan::{Looked, pages_below};
use pas_steps::Desk;

/// Pages of one block that are passed by, as the bits of its word in a page vector.
#[derive(Clone, Copy, Drop)]
pub(crate) struct Passed {
    block: u32,
    pages: u64,
}

/// The pages from `next` on of the word of this block.
fn offered_from(word: u64, block: u32, next: u32) -> u64
    requires block { block < 2 ^ 25 }
    requires next { next / 64 ≤ block }
    ensures fits { word < 2 ^ 64 }
    ensures offered { (b : ℕ) → b < 64 → has_bit result b ≡ (has_bit word b && not (nat_lt (64 * block + b) next)) }
{
    word & !pages_below(block, next)
}

/// The lowest ones of these offered pages, up to the first that isn't short.
fn lowest_short(offered: u64, short: u64) -> u64
    ensures both { (b : ℕ) → b < 64 → has_bit result b ≡ true → (has_bit offered b ≡ true) × (has_bit short b ≡ true) }
    ensures lowest { (b c : ℕ) → b < 64 → has_bit result b ≡ true → c < b → has_bit offered c ≡ true → has_bit result c ≡ true }
{
    let stop = offered & !short;
    if stop == 0 {
        return offered;
    }
    offered & ((1 << stop.trailing_zeros()) - 1)
}

/// The lowest offered pages from `next` on, as far as they are short of the run and stand in one block. None where the lowest isn't short, where none is
/// offered, or where the desk doesn't tell its words.
fn next_short<D: Desk>(desk: &D, directory: Directory, next: u32, run: LeastRun) -> Option<Passed>
    requires directory { IsDirectoryOf (D.standing desk.now).seat.profile directory }
    ensures { MatchOption result (Unit {0}) (MayPass D.tells (D.standing desk.now) directory next run) }
{
    let number = directory.number();
    let end = desk.profile().pages / 64 + 1;
    for block in next / 64..end {
        let Some(word) = desk.peek(Word::Eligible(number, block)) else {
            return None;
        };
        let offered = offered_from(word, block, next);
        if offered != 0 {
            let short = desk.short_pages(run.grains, run.align, block);
            let pages = lowest_short(offered, short);
            if pages == 0 {
                return None;
            }
            return Some(Passed { block, pages });
        }
    }
    None
}

/// How many steps the visits of these pages are: each one's looks at the rest of its row, the claim and the nine steps of the back end.
fn steps_of(pages: u32, next: u32, block: u32, passed: u64) -> u64
    requires some { passed ≢ 0 }
    requires block { (next / 64 ≤ block) × (block ≤ pages / 64) }
    ensures { result ≡ passed_steps pages next block passed }
{
    let row_end = (block / 8 * 8 + 8).min(pages / 64 + 1);
    let more = passed.count_ones() - 1;
    let first = row_end - next / 64 + 10;
    (first + more * (row_end - block + 10)) as u64
}

/// Passes by the lowest offered pages from `next` on that are short of the run without which nothing fits.
pub(crate) fn pass_short<S: Serving, D: Desk>(serving: &S, desk: &mut D, looked: &mut Looked)
    requires next { 1 ≤ looked.old.next }
    requires directory { IsDirectoryOf (D.standing desk.old).seat.profile looked.old.directory }
    requires suits { (S.rule serving.now).suits looked.old.directory }
    requires can { CanCall (D.standing desk.old) AnyView }
    ensures directory { looked.new.directory ≡ looked.old.directory }
    ensures next { looked.old.next ≤ looked.new.next }
    ensures passes { PassesPages (S.rule serving.now) looked.old.directory looked.old.next looked.new.next looked.old.unfit looked.new.unfit (D.standing desk.old) (D.standing desk.new) }
    ensures home { D.home desk.new ≡ D.home desk.old }
{
    let Some(run) = serving.least_run(looked.directory) else {
        return;
    };
    while let Some(passed) = next_short(desk, looked.directory, looked.next, run) {
        let steps = steps_of(
            desk.profile().pages,
            looked.next,
            passed.block,
            passed.pages,
        );
        if !desk.tell(steps) {
            return;
        }
        looked.pass_by(passed.block, passed.pages);
    }
}

/// Notes the page, on which nothing fitted, as short of the run without which nothing fits.
pub(crate) fn note_unfit<S: Serving, D: Desk>(
    serving: &S,
    desk: &mut D,
    page: u32,
    directory: Directory,
)
    requires page { IsPage (D.standing desk.old).seat.profile page }
    requires suits { (S.rule serving.now).suits directory }
    ensures still { StandsStill (D.standing desk.old) (D.standing desk.new) }
    ensures home { D.home desk.new ≡ D.home desk.old }
{
    if let Some(run) = serving.least_run(directory) {
        desk.note_short(run.grains, run.align, page);
    }
}
