//! The keeper of a thread at the shared region, in a guarded replay.
ghost use Rattle.std.specs.Prelude.{◌≡◌, ◌++◌};
ghost use Rattle.pas_shared.specs.{Ruled.rows_of, Benches.{rows_on, first_row, IsBenchOf, IsFreshRow}};
ghost use Rattle.pas_threads.specs.{Pairs.IsKeeperOf, Seats.{keeper_parts, rows_without_keeper, IsSameKeeper, KeeperMayLeave, HasRisen}};

use pas_acts::keepers::{Tries, try_guarded};
use pas_guard::GuardBook;
use pas_profile::Block;
use pas_records::Records;
use pas_shared::{Bench, BenchDesk, Member, SharedPass, SharedRegion};

/// A keeper while it doesn't sit at the region: its pass, its book, and its records. Its thread's worker makes its steps.
#[derive(Drop)]
pub(crate) struct Keeper {
    pub(crate) pass: SharedPass,
    pub(crate) book: GuardBook,
    pub(crate) out: Records,
}

/// A keeper on its thread's bench.
#[derive(Drop)]
pub(crate) struct Seated {
    pub(crate) member: Member,
    pub(crate) book: GuardBook,
    pub(crate) out: Records,
}

/// The keeper of a thread, on its bench while the thread works, which lends it its desk. A thread of a replay that isn't guarded has none.
#[derive(Drop)]
pub(crate) struct Beside {
    pub(crate) keeper: Option<Seated>,
}

/// Seats the keeper on the bench, if there is one. One load then.
pub(crate) fn seat_keeper(
    region: &SharedRegion,
    bench: &mut Bench,
    keeper: Option<Keeper>,
) -> Option<Seated>
    requires of { IsBenchOf region.now bench.old }
    requires keeper { IsKeeperOf region.now keeper }
    ensures of { IsBenchOf region.now bench.new }
    ensures rows { rows_on bench.new ≡ rows_of (keeper_parts keeper) ++ rows_on bench.old }
    ensures seated { IsSameKeeper keeper result }
{
    let Some(resting) = keeper else {
        return None;
    };
    let Keeper { pass, book, out } = resting;
    Some(Seated {
        member: bench.seat(region, pass),
        book,
        out,
    })
}

/// Lets the keeper leave the bench, if there is one: it has its pass again. One load then.
pub(crate) fn let_keeper_leave(
    region: &SharedRegion,
    bench: &mut Bench,
    seated: Option<Seated>,
) -> Option<Keeper>
    requires of { IsBenchOf region.now bench.old }
    requires fresh { IsFreshRow (rows_on bench.old) }
    requires sits { KeeperMayLeave region.now (first_row (rows_on bench.old)) seated }
    ensures of { IsBenchOf region.now bench.new }
    ensures left { rows_on bench.new ≡ rows_without_keeper seated (rows_on bench.old) }
    ensures keeper { HasRisen region.now (first_row (rows_on bench.old)) seated result }
{
    let Some(there) = seated else {
        return None;
    };
    let Seated { member, book, out } = there;
    Some(Keeper {
        pass: bench.leave(region, member),
        book,
        out,
    })
}

impl<'a> Tries<BenchDesk<'a>> for Beside {
    ghost use Rattle.pas_threads.specs.{Pairs.kept_beside, Still.beside_still};

    type Home = ();

    ghost home = { λ beside. tt };

    ghost has = { λ desk beside. kept_beside desk.region.now desk.place.bench beside };

    fn try_guarded(
        &mut self,
        desk: &mut BenchDesk<'a>,
        name: u32,
        heap: u8,
        size: u32,
        align: u32,
    ) -> Option<Block> {
        let Some(seated) = self.keeper.take() else {
            unreachable!();
        };
        let Seated {
            member,
            mut book,
            mut out,
        } = seated;
        let thread = desk.replace(member);
        let block = try_guarded(desk, &mut book, name, heap, size, align, &mut out);
        let member = desk.replace(thread);
        self.keeper = Some(Seated { member, book, out });
        block
    }

    ghost still = { λ keeper old new l m home stood stands. beside_still keeper old new l m home stood stands };
}
