//! The intruder: an actor that goes on errands before chosen steps of another one.
ghost use Rattle.std.specs.Prelude.{◌≡◌, ◌≤◌, []};
ghost use Rattle.pas_steps.specs.{Clear.HasNothing, Desks.CanCall};
ghost use Rattle.pas_plain.specs.Storms.{Acts};
ghost use Rattle.pas_trials.specs.Storms.{cache_of};

use crate::errands::{Errand, Hands};
use arrayvec::ArrayVec;
use pas_plain::Intruder;
use pas_steps::Desk;

/// At most so many visits of a guest are remembered.
pub const MOST_MOMENTS: usize = 128;

/// An errand before the own step of this number of the other actor.
#[derive(Clone, Copy, PartialEq, Eq, Drop)]
pub struct Visit {
    pub at: u64,
    pub errand: Errand,
}

/// A moment of a storm: before the own step of this number, an actor had shown so many events and made so many steps in all.
#[derive(Clone, Copy, Default, PartialEq, Eq, Drop)]
pub struct Moment {
    pub at: u64,
    pub shown: usize,
    pub steps: u64,
}

/// An intruder with a cache of its own, which goes on the errand of its first visit for a step before that step, and stops its cache then.
#[derive(Drop)]
pub struct Guest {
    hands: Hands,
    visits: Vec<Visit>,
    moments: ArrayVec<Moment, MOST_MOMENTS>,
    ghost locals: { (cache_of hands).locals ≡ [] },
}

/// The errand of the first visit before the step of this number.
fn errand_at(visits: &[Visit], number: u64) -> Option<Errand> {
    for visit in visits {
        if visit.at == number {
            return Some(visit.errand);
        }
    }
    None
}

/// Remembers the moment while there is room.
fn remember(moments: &mut ArrayVec<Moment, MOST_MOMENTS>, moment: Moment) {
    if !moments.is_full() {
        moments.push(moment);
    }
}

impl Hands {
    /// Goes on the errand with an empty cache, and stops the cache.
    fn visit<D: Desk>(&mut self, desk: &mut D, errand: Errand)
        requires locals { (cache_of self.old).locals ≡ [] }
        requires can { CanCall (D.standing desk.old) HasNothing }
        requires room { 70 ≤ D.spare_of desk.old }
        ensures acts { Acts (D.standing desk.old) (D.standing desk.new) }
        ensures locals { (cache_of self.new).locals ≡ [] }
        ensures home { D.home desk.new ≡ D.home desk.old }
    {
        self.go(desk, errand);
        self.cache.stop(desk);
    }
}

impl Guest {
    /// A guest with these visits, whose hands did nothing yet.
    pub fn new(hands: Hands, visits: Vec<Visit>) -> Guest
        requires locals { (cache_of hands).locals ≡ [] }
        ensures none { result.moments.items ≡ [] }
    {
        Guest {
            hands,
            visits,
            moments: ArrayVec::new(),
        }
    }

    /// The moments after its visits, in order, at most 128.
    pub fn moments(&self) -> &[Moment]
        ensures { result.now ≡ self.now.moments.items }
    {
        self.moments.as_slice()
    }
}

impl Intruder for Guest {
    fn act<D: Desk>(&mut self, desk: &mut D, number: u64) {
        let Some(errand) = errand_at(&self.visits, number) else {
            return;
        };
        self.hands.visit(desk, errand);
        let moment = Moment {
            at: number,
            shown: desk.shown().len(),
            steps: desk.count(),
        };
        remember(&mut self.moments, moment);
    }
}
