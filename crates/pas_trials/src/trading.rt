//! Blocks that one thread allocates and another one frees. What is sent is the name, with a past in which the block's give stands.
ghost use Rattle.std.specs.Prelude.{◌≡◌, ◌≤◌, ◌+◌, IfOk, MatchOption};
ghost use Rattle.pas_steps.specs.{Clear.HasNothing, Desks.CanCall};
ghost use Rattle.pas_free_log.specs.Flushes.{EndsName};
ghost use Rattle.pas_shared.specs.Passes.{IsFreshPass, standing_of};
ghost use Rattle.pas_trials.specs.Trades.{IsPastAt, HasTraded, no_table, spare_of, table_of};

use crossbeam_channel::{Receiver, Sender, bounded};
use pas_bestfit::alloc;
use pas_free_log::{end_one, may_end};
use pas_profile::Name;
use pas_shared::{Past, SharedDesk, SharedPass, SharedRegion};
use pas_steps::Desk;
use std::alloc::{AllocError, Global};
use std::marker::{Brand, PhantomData};
use std::sync::Wait;
use std::thread::{Threads, join};

/// How many bytes each of the two asks for.
const BYTES: u32 = 100;

/// The region that gifts are of.
pub trait OfTable {
    ghost use Rattle.atomic_table.specs.Seated.{TableId};

    /// The table of its words.
    ghost table: { TableId };
}

impl OfTable for Brand {
    ghost table = { no_table };
}

/// The name of a block, and a past of the region in which its give stands.
#[derive(Drop)]
pub struct Gift<K: OfTable> {
    name: Name,
    past: Past,
    of: PhantomData<K>,
    ghost told: { IsPastAt K.table past },
}

/// What came of a trade: the pass, and the name whose end was tried, if one came.
#[derive(Drop)]
pub struct Traded {
    pub pass: SharedPass,
    pub ended: Option<Name>,
}

/// Asks for a block, and sends it to the other one where there was room. At most three events.
fn give<K: OfTable + Send + Sync, R: Wait>(
    rt: &R,
    desk: &mut SharedDesk<'_>,
    to: &Sender<Gift<K>, Global>,
)
    requires table { table_of desk.old.region.now ≡ K.table }
    requires can { CanCall (standing_of desk.old) HasNothing }
    requires room { 3 ≤ spare_of desk.old }
    ensures can { CanCall (standing_of desk.new) HasNothing }
    ensures room { spare_of desk.old ≤ spare_of desk.new + 3 }
    ensures region { desk.new.region.now ≡ desk.old.region.now }
{
    let answer = alloc(desk, 0, BYTES);
    let past = desk.past();
    if let Ok(block) = answer {
        let gift = Gift {
            name: block.name,
            past,
            of: PhantomData,
        };
        let _ = to.send(rt, gift);
    }
}

/// Waits for a block of the other one, and tries its end, behind all that stands in its past. None where none comes, or where its name can't be one of
/// the region. One event.
fn take<K: OfTable + Send + Sync, R: Wait>(
    rt: &R,
    desk: &mut SharedDesk<'_>,
    from: &Receiver<Gift<K>, Global>,
) -> Option<Name>
    requires table { table_of desk.old.region.now ≡ K.table }
    requires can { CanCall (standing_of desk.old) HasNothing }
    requires room { 1 ≤ spare_of desk.old }
    ensures ended { MatchOption result (desk.new.pass ≡ desk.old.pass) (λ name. EndsName name (standing_of desk.old) (standing_of desk.new)) }
    ensures can { CanCall (standing_of desk.new) HasNothing }
    ensures region { desk.new.region.now ≡ desk.old.region.now }
{
    let Ok(gift) = from.recv(rt) else {
        return None;
    };
    let Gift { name, past, of: _ } = gift;
    desk.after(past);
    if !may_end(desk.profile(), name) {
        return None;
    }
    end_one(desk, name);
    Some(name)
}

/// The actor sits down, gives a block, takes one, and rises.
fn trade<K: OfTable + Send + Sync, R: Wait>(
    rt: &R,
    region: &SharedRegion,
    pass: SharedPass,
    to: Sender<Gift<K>, Global>,
    from: Receiver<Gift<K>, Global>,
) -> Traded
    requires table { table_of region.now ≡ K.table }
    requires pass { IsFreshPass region.now 4 pass }
    ensures { HasTraded region.now result }
{
    let mut desk = region.desk(pass);
    give(rt, &mut desk, &to);
    let ended = take(rt, &mut desk, &from);
    let pass = desk.into_pass();
    Traded { pass, ended }
}

/// Both at once, with a channel for each way.
fn both<K: OfTable + Send + Sync, R: Threads + Wait + Sync>(
    rt: &R,
    alloc: Global,
    region: &SharedRegion,
    first: SharedPass,
    second: SharedPass,
) -> Result<(Traded, Traded), AllocError>
    requires table { table_of region.now ≡ K.table }
    requires first { IsFreshPass region.now 4 first }
    requires second { IsFreshPass region.now 4 second }
    ensures { IfOk result (λ traded. HasTraded region.now traded.0 × HasTraded region.now traded.1) }
{
    let (to_second, from_first) = bounded::<Gift<K>, Global>(alloc, 1)?;
    let (to_first, from_second) = bounded::<Gift<K>, Global>(alloc, 1)?;
    Ok(join(
        rt,
        move || -> Traded
            requires { (table_of region.now ≡ K.table) × IsFreshPass region.now 4 first }
            ensures { HasTraded region.entry.now result }
        { trade::<K, R>(rt, region, first, to_second, from_second) },
        move || -> Traded
            requires { (table_of region.now ≡ K.table) × IsFreshPass region.now 4 second }
            ensures { HasTraded region.entry.now result }
        { trade::<K, R>(rt, region, second, to_first, from_first) },
    ))
}

/// Each of two actors, in a thread of its own, asks for a block, sends it to the other one, and frees the block that it gets from there. Afterwards
/// neither holds or owes anything, and the last event of each is what came of that free. It waits for as long as the other one doesn't answer: for
/// ever where no second thread can be made.
pub fn trade_blocks<R: Threads + Wait + Sync>(
    rt: &R,
    alloc: Global,
    region: &SharedRegion,
    first: SharedPass,
    second: SharedPass,
) -> Result<(Traded, Traded), AllocError>
    requires first { IsFreshPass region.now 4 first }
    requires second { IsFreshPass region.now 4 second }
    ensures { IfOk result (λ traded. HasTraded region.now traded.0 × HasTraded region.now traded.1) }
{
    both::<Brand, R>(rt, alloc, region, first, second)
}
