//! Rows of eligible words: up to eight are read before any of them is searched.
ghost use Rattle.std.specs.Prelude.{ℕ, ◌≡◌, ◌≤◌, ◌<◌, ◌+◌, ◌*◌, ◌/◌, ◌^◌, nat_lt, MatchOption};
ghost use Rattle.pas_bits.specs.Bits.{has_bit};
ghost use Rattle.pas_profile.specs.Profiles.{IsDirectoryOf};
ghost use Rattle.pas_steps.specs.Desks.{AnyView, CanCall};
ghost use Rattle.pas_scan.specs.Rows.{ReadsRow, ShowsNone, IsLowestShown};

use pas_bits::{LANES, any_and_not, first_set};
use pas_profile::{Directory, Word};
use pas_steps::Desk;

/// The eligible words of the directory from that of `block` on to below `end`, each read once and the lowest first. Zeros stand behind them.
pub(crate) fn read_row<D: Desk>(
    desk: &mut D,
    directory: Directory,
    block: u32,
    end: u32,
) -> [u64; LANES]
    requires directory { IsDirectoryOf (D.standing desk.old).seat.profile directory }
    requires some { block ≤ end }
    requires few { end ≤ block + 8 }
    requires within { end ≤ (D.standing desk.old).seat.profile.pages / 64 + 1 }
    requires can { CanCall (D.standing desk.old) AnyView }
    ensures reads { ReadsRow directory block end (D.standing desk.old) (D.standing desk.new) result }
    ensures home { D.home desk.new ≡ D.home desk.old }
{
    let number = directory.number();
    let mut row = [0; LANES];
    for word in block..end {
        row[(word - block) as usize] = desk.look(Word::Eligible(number, word));
    }
    row
}

/// The bits of the pages below `next` in the word of this block.
#[tactic(auto, using(crate::proofs::Reading::low_bits, crate::proofs::Reading::ones_below))]
pub fn pages_below(block: u32, next: u32) -> u64
    requires block { block < 2 ^ 25 }
    requires next { next / 64 ≤ block }
    ensures { (b : ℕ) → b < 64 → has_bit result b ≡ nat_lt (64 * block + b) next }
{
    (1 << next.saturating_sub(64 * block)) - 1
}

/// The lowest page from `next` on that the row shows, whose first word is that of `block`. None exactly where it shows none.
pub(crate) fn lowest_in_row(row: &[u64; LANES], block: u32, next: u32) -> Option<u32>
    requires block { block < 2 ^ 25 }
    requires next { next / 64 ≤ block }
    ensures { MatchOption result (ShowsNone row.now block next) (IsLowestShown row.now block next) }
{
    let mut below = [0; LANES];
    below[0] = pages_below(block, next);
    if !any_and_not(row, &below) {
        return None;
    }
    let mut open = *row;
    open[0] &= !below[0];
    let first = first_set(&open)?;
    Some(64 * block + first as u32)
}
