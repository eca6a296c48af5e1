//! A desk that tells of its own side only.
ghost use Rattle.std.specs.Prelude.{◌≡◌};
ghost use Rattle.pas_steps.specs.{Views.View, Lists.Whole};

use pas_profile::{Event, Profile};
use pas_steps::{Desk, Step};

/// A desk that stands for the views of the desk in it, but beside any list of the steps of all actors: it says nothing of what the
/// others did.
///
/// So it is what the desk of a shared region is to its actor, whose view is all that it can vouch for: what is written for any desk
/// runs at it unchanged, and cannot lean on the whole state. That others act between two steps of the actor it doesn't show, since
/// under it nobody does.
#[derive(Drop)]
pub struct Closed<D> {
    desk: D,
}

impl<D: Desk> Closed<D> {
    /// Closes the desk to the steps of others.
    #[inline]
    pub fn new(desk: D) -> Closed<D>
        ensures home { ⟦<Closed<D> as Desk>⟧.home result ≡ D.home desk }
        ensures stands { (v : View) (w l : Whole) → (D.standing desk).stands v w → (⟦<Closed<D> as Desk>⟧.standing result).stands v l }
    {
        Closed { desk }
    }

    /// Opens it again.
    #[inline]
    pub fn into_inner(self) -> D
        ensures home { D.home result ≡ ⟦<Closed<D> as Desk>⟧.home self }
        ensures stands { (v : View) (l : Whole) → (⟦<Closed<D> as Desk>⟧.standing self).stands v l → (w : Whole) × (D.standing result).stands v w }
    {
        self.desk
    }
}

impl<D: Desk> Desk for Closed<D> {
    ghost use Rattle.std.{specs.Prelude.false, proofs.lemmas.Bool.false≢true};
    ghost use Rattle.pas_plain.specs.Sides.{one_side};

    type Home = D::Home;

    ghost home = { λ closed. D.home closed.desk };

    ghost forgotten = { λ home. D.forgotten home };

    ghost tells = { false };

    ghost standing = { λ closed. one_side (D.standing closed.desk) };

    ghost spare_of = { λ closed. D.spare_of closed.desk };

    ghost shown_of = { λ closed. D.shown_of closed.desk };

    ghost count_of = { λ closed. D.count_of closed.desk };

    #[inline]
    fn actor(&self) -> u8 {
        self.desk.actor()
    }

    #[inline]
    fn profile(&self) -> &Profile {
        self.desk.profile()
    }

    #[inline]
    fn count(&self) -> u64 {
        self.desk.count()
    }

    #[inline]
    fn shown(&self) -> &[Event] {
        self.desk.shown()
    }

    #[inline]
    fn make(&mut self, step: Step) -> u64 {
        self.desk.make(step)
    }

    ghost valid = { λ closed. D.valid closed.desk };

    ghost limited = { λ closed. D.limited closed.desk };

    ghost shows = { λ closed v l stood. D.shows closed.desk v stood.0 stood.1 };

    ghost spares = { λ closed v l stood. D.spares closed.desk v stood.0 stood.1 };

    ghost counts = { λ closed v l stood. D.counts closed.desk v stood.0 stood.1 };

    ghost told = { λ closed v l tells stood. absurd (false≢true tells) };

    ghost told_part = { λ closed v l tells stood. absurd (false≢true tells) };
}
