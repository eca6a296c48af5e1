//! The words of a region whose actors have all risen.
ghost use Rattle.std.specs.{Prelude.{◌≡◌, ◌<◌, [], length, All}, Slots.{slots_items, slots_len, IsFull}};
ghost use Rattle.pas_shared.specs.{Ruled.{joined, seen_in, IsNoBench}, Passes.{IsPassOf, IsNamed, EndsWith}, Ledgers.{IsLedgerOf, so_far, EndsAfter}};
ghost use Rattle.pas_shared.specs.{Pasts.{IsPastOf, told}, Left.IsLeftBy, Benches.{rows_on, IsBenchOf, EndsOnBench}};

use crate::bench::Bench;
use crate::ledger::Ledger;
use crate::pass::{ActorSeat, SharedPass};
use crate::past::Past;
use crate::region::SharedRegion;
use crate::rule::{JoinsBoth, TableSeat, TableWords};
use atomic_table::Closed;
use pas_steps::State;
use std::alloc::Global;

/// The seat takes in the actor of the pass.
fn join(words: &TableWords, seat: &mut TableSeat, pass: SharedPass)
    requires { (seat.old.table_id ≡ words.now.table_id) × (0 < words.now.table_id.words) × (pass.place.seat.table_id ≡ words.now.table_id) }
    ensures { (seat.new.table_id ≡ words.now.table_id) × (seat.new.me ≡ (joined seat.old.me.0 pass.place.seat.me.0, seat.old.me.1)) }
{
    let SharedPass {
        place,
        profile: _,
        notes: _,
    } = pass;
    let ActorSeat {
        seat: other,
        actor: _,
    } = place;
    words.join_seat::<JoinsBoth>(seat, other);
}

/// The seat takes in those of all passes.
fn join_all(words: &TableWords, seat: &mut TableSeat, mut passes: Vec<SharedPass>)
    requires { (seat.old.table_id ≡ words.now.table_id) × (seat.old.me.1 ≡ []) × IsNoBench seat.old.me.0 × (0 < words.now.table_id.words) × All (λ p. p.place.seat.table_id ≡ words.now.table_id) passes.items }
    ensures seat { seat.new.table_id ≡ words.now.table_id }
    ensures passes { All (IsNamed seat.new.me.0) passes.items }
    ensures seen { seen_in seat.new.me.0 ≡ seen_in seat.old.me.0 }
{
    while let Some(pass) = passes.pop() {
        join(words, seat, pass);
    }
}

/// Copies the words of the table, which nobody shares any more.
fn copy(closed: &Closed<(), Global>, words: &mut Vec<u64>)
    requires { IsFull closed.now.words × (length words.old.items ≡ slots_len closed.now.words) }
    ensures { words.new.items ≡ slots_items closed.now.words }
{
    for i in 0..words.len() {
        words[i] = closed.word(i);
    }
}

/// Ends the work at a region. The words of the state are those after one legal list, whose part of the actor of each pass that is
/// handed in is the list of that actor's own steps. It takes no memory: the words are copied into a vector that the region kept for
/// them.
pub fn close(region: SharedRegion, passes: Vec<SharedPass>) -> State
    requires { All (IsPassOf region) passes.items }
    ensures { EndsWith region.profile passes.items result }
{
    let ledger = Ledger::open(&region);
    close_settled(region, ledger, passes)
}

/// The same, and that list begins with all steps that stand in the past.
pub fn close_after(region: SharedRegion, past: Past, passes: Vec<SharedPass>) -> State
    requires past { IsPastOf region past }
    requires passes { All (IsPassOf region) passes.items }
    ensures { EndsAfter region.profile (told past) passes.items result }
{
    let Past { ledger } = past;
    close_settled(region, ledger, passes)
}

/// The words that the region was left with, which nobody shares any more.
fn words_left(region: SharedRegion, seat: TableSeat) -> State
    requires { seat.table_id ≡ region.table.shared.table_id }
    ensures { IsLeftBy region.profile seat.me.0 result }
{
    let SharedRegion {
        table,
        profile,
        layout: _,
        closed_words: mut words,
    } = region;
    let closed = table.close_with(seat);
    copy(&closed, &mut words);
    closed.free();
    State::of_words(profile, words)
}

/// The same, and that list begins with all steps that stand in the ledger.
pub fn close_settled(region: SharedRegion, ledger: Ledger, passes: Vec<SharedPass>) -> State
    requires ledger { IsLedgerOf region ledger }
    requires passes { All (IsPassOf region) passes.items }
    ensures { EndsAfter region.profile (so_far ledger) passes.items result }
{
    let Ledger { mut seat } = ledger;
    join_all(&region.table.shared, &mut seat, passes);
    words_left(region, seat)
}

/// Ends the work at a region by a bench. The words of the state are those after one legal list, of which the rows of the bench are rows: the steps that their actors made
/// since a row's base stand behind it, in the row's order.
pub fn close_bench(region: SharedRegion, bench: Bench) -> State
    requires { IsBenchOf region bench }
    ensures { EndsOnBench region.profile (rows_on bench) result }
{
    let Bench { seat } = bench;
    words_left(region, seat)
}
