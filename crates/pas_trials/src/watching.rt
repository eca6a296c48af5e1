//! A desk that remembers when its actor's events came.
ghost use Rattle.std.specs.Prelude.{◌≡◌};
ghost use Rattle.pas_steps.specs.{Views.View, Lists.Whole};

use arrayvec::ArrayVec;
use pas_profile::{Event, Profile};
use pas_steps::{Desk, Step};

/// Of at most so many events the moment is remembered.
pub const MOST_WATCHED: usize = 128;

/// A desk with the number of steps that its actor had made right after each step with an event.
///
/// It is the desk in it to every call, and tells as much.
#[derive(Drop)]
pub struct Watched<D> {
    desk: D,
    counts: ArrayVec<u64, MOST_WATCHED>,
}

/// Remembers the count while there is room.
fn remember(counts: &mut ArrayVec<u64, MOST_WATCHED>, count: u64) {
    if !counts.is_full() {
        counts.push(count);
    }
}

impl<D: Desk> Watched<D> {
    /// Watches the desk from now on.
    pub fn new(desk: D) -> Watched<D>
        ensures home { ⟦<Watched<D> as Desk>⟧.home result ≡ D.home desk }
        ensures spare { ⟦<Watched<D> as Desk>⟧.spare_of result ≡ D.spare_of desk }
        ensures seat { (⟦<Watched<D> as Desk>⟧.standing result).seat ≡ (D.standing desk).seat }
        ensures stands { (v : View) (l : Whole) → (D.standing desk).stands v l → (⟦<Watched<D> as Desk>⟧.standing result).stands v l }
    {
        Watched {
            desk,
            counts: ArrayVec::new(),
        }
    }

    /// The desk, and the number of steps right after each event since it was watched, in order, of 128 at most.
    pub fn into_parts(self) -> (D, ArrayVec<u64, MOST_WATCHED>)
        ensures home { D.home result.0 ≡ ⟦<Watched<D> as Desk>⟧.home self }
        ensures seat { (D.standing result.0).seat ≡ (⟦<Watched<D> as Desk>⟧.standing self).seat }
        ensures stands { (v : View) (l : Whole) → (⟦<Watched<D> as Desk>⟧.standing self).stands v l → (D.standing result.0).stands v l }
    {
        (self.desk, self.counts)
    }
}

impl<D: Desk> Desk for Watched<D> {
    type Home = D::Home;

    ghost home = { λ watched. D.home watched.desk };

    ghost forgotten = { λ home. D.forgotten home };

    ghost tells = { D.tells };

    ghost standing = { λ watched. D.standing watched.desk };

    ghost spare_of = { λ watched. D.spare_of watched.desk };

    ghost shown_of = { λ watched. D.shown_of watched.desk };

    ghost count_of = { λ watched. D.count_of watched.desk };

    fn actor(&self) -> u8 {
        self.desk.actor()
    }

    fn profile(&self) -> &Profile {
        self.desk.profile()
    }

    fn count(&self) -> u64 {
        self.desk.count()
    }

    fn shown(&self) -> &[Event] {
        self.desk.shown()
    }

    fn make(&mut self, step: Step) -> u64 {
        let before = self.desk.shown().len();
        let answer = self.desk.make(step);
        if self.desk.shown().len() > before {
            remember(&mut self.counts, self.desk.count());
        }
        answer
    }

    ghost valid = { λ watched. D.valid watched.desk };

    ghost limited = { λ watched. D.limited watched.desk };

    ghost shows = { λ watched v l stood. D.shows watched.desk v l stood };

    ghost spares = { λ watched v l stood. D.spares watched.desk v l stood };

    ghost counts = { λ watched v l stood. D.counts watched.desk v l stood };

    ghost told = { λ watched v l tells stood. D.told watched.desk v l tells stood };

    ghost told_part = { λ watched v l tells stood. D.told_part watched.desk v l tells stood };
}
