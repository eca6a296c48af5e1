//! One actor's place at a region.
ghost use Rattle.std.specs.Prelude.{◌≡◌, ◌+◌, ◌-◌, ◌/◌, ◌^◌, ◌<◌, ◌≤◌, Bool, ℕ, true, min, length, List, MatchOption};
ghost use Rattle.pas_profile.specs.{declared.event.Event.Event, Profiles.{IsValid, IsPage, IsWordOf}};
ghost use Rattle.pas_steps.specs.{Views.View, Events.{events_of, wants}, Lists.{Whole, Legal, part}, Desks.{Standing, CanMake, Makes}, Noted.ShowsRest};
ghost use Rattle.pas_steps.specs.Told.{TellsWord, TookSteps, AreShort, StandsStill};

use crate::step::Step;
use pas_profile::{Block, Directory, Event, Name, Profile, Word};

/// One actor's place at a region. Every step is made through it.
///
/// No step method refuses. Each asks that some view for which the desk stands allows the step, and that there is room for the
/// event that the step may make. A desk stores no list of its steps.
pub trait Desk {
    /// What tells one region from another of the same profile, and what was forgotten at it.
    type Home;

    /// The region, and what was forgotten. No step changes it.
    ghost home: { Self → Self.Home };

    /// How many of the actor's events were shown once, and are no longer.
    ghost forgotten: { Self.Home → ℕ };

    /// Whether the desk tells the whole state. It does only where no other desk runs beside it.
    ghost tells: { Bool };

    /// What the desk means: its seat, and the views and lists for which it stands.
    ghost standing: { Self → Standing };

    /// For how many more events there is room.
    ghost spare_of: { Self → ℕ };

    /// The events so far that weren't forgotten, the oldest first.
    ghost shown_of: { Self → List Event };

    /// How many steps were made.
    ghost count_of: { Self → ℕ };

    fn actor(&self) -> u8
        ensures { result ≡ (standing self.now).seat.actor };

    fn profile(&self) -> &Profile
        ensures { result.now ≡ (standing self.now).seat.profile };

    /// The number of steps made, which stays at 2^64 - 1 once it is there.
    fn count(&self) -> u64
        ensures { result ≡ count_of self.now };

    /// All events made, in order, but for those that were forgotten.
    fn shown(&self) -> &[Event]
        ensures { result.now ≡ shown_of self.now };

    /// Makes a step, and answers the word's value before it.
    fn make(&mut self, step: Step) -> u64
        requires can { CanMake (standing self.old) step }
        requires room { wants step ≤ spare_of self.old }
        ensures makes { Makes (standing self.old) (standing self.new) step result }
        ensures home { home self.new ≡ home self.old };

    /// Loads any word.
    #[inline(always)]
    fn look(&mut self, word: Word) -> u64
        requires can { CanMake (standing self.old) (Step.Look word) }
        requires room { wants (Step.Look word) ≤ spare_of self.old }
        ensures makes { Makes (standing self.old) (standing self.new) (Step.Look word) result }
        ensures home { home self.new ≡ home self.old }
    {
        self.make(Step::Look { word })
    }

    /// Writes the deed of the page where it has none. Where the answer is 0, the actor has the page's right from now on.
    #[inline]
    fn deed(&mut self, page: u32, directory: Directory) -> u64
        requires can { CanMake (standing self.old) (Step.Deed page directory) }
        requires room { wants (Step.Deed page directory) ≤ spare_of self.old }
        ensures makes { Makes (standing self.old) (standing self.new) (Step.Deed page directory) result }
        ensures home { home self.new ≡ home self.old }
    {
        self.make(Step::Deed { page, directory })
    }

    /// Backs the page. The actor holds a grain of it and knows its deed.
    #[inline]
    fn back(&mut self, page: u32) -> u64
        requires can { CanMake (standing self.old) (Step.Back page) }
        requires room { wants (Step.Back page) ≤ spare_of self.old }
        ensures makes { Makes (standing self.old) (standing self.new) (Step.Back page) result }
        ensures home { home self.new ≡ home self.old }
    {
        self.make(Step::Back { page })
    }

    /// Takes the free ones of the mask's grains in a free word of the page, whose right is the actor's.
    #[inline]
    fn take(&mut self, page: u32, word: u8, mask: u64) -> u64
        requires can { CanMake (standing self.old) (Step.Take page word mask) }
        requires room { wants (Step.Take page word mask) ≤ spare_of self.old }
        ensures makes { Makes (standing self.old) (standing self.new) (Step.Take page word mask) result }
        ensures home { home self.new ≡ home self.old }
    {
        self.make(Step::Take { page, word, mask })
    }

    /// Puts grains back that the actor holds, some at least, on a page that isn't unstamped.
    #[inline]
    fn put(&mut self, page: u32, word: u8, mask: u64) -> u64
        requires can { CanMake (standing self.old) (Step.Put page word mask) }
        requires room { wants (Step.Put page word mask) ≤ spare_of self.old }
        ensures makes { Makes (standing self.old) (standing self.new) (Step.Put page word mask) result }
        ensures home { home self.new ≡ home self.old }
    {
        self.make(Step::Put { page, word, mask })
    }

    /// Gives the block, all of whose grains the actor holds, with the turn of the life word that it knows.
    #[inline]
    fn give(&mut self, block: Block) -> u64
        requires can { CanMake (standing self.old) (Step.Give block) }
        requires room { wants (Step.Give block) ≤ spare_of self.old }
        ensures makes { Makes (standing self.old) (standing self.new) (Step.Give block) result }
        ensures home { home self.new ≡ home self.old }
    {
        self.make(Step::Give { block })
    }

    /// Ends the block of this name where it lives with just so many grains. The actor has read the epoch.
    #[inline]
    fn end(&mut self, name: Name, guess: u32) -> u64
        requires can { CanMake (standing self.old) (Step.End name guess) }
        requires room { wants (Step.End name guess) ≤ spare_of self.old }
        ensures makes { Makes (standing self.old) (standing self.new) (Step.End name guess) result }
        ensures home { home self.new ≡ home self.old }
    {
        self.make(Step::End { name, guess })
    }

    /// Ends the block of this name where it lives with just this room, a multiple of 16. The actor has read the epoch. One event is made: where
    /// the block lives with another room, the refusal with the room that was named.
    #[inline]
    fn end_sized(&mut self, name: Name, room: u32) -> u64
        requires can { CanMake (standing self.old) (Step.EndSized name room) }
        requires room { wants (Step.EndSized name room) ≤ spare_of self.old }
        ensures makes { Makes (standing self.old) (standing self.new) (Step.EndSized name room) result }
        ensures home { home self.new ≡ home self.old }
    {
        self.make(Step::EndSized { name, room })
    }

    /// Raises the stamp of the page, of which the actor holds a grain, to the epoch that it read.
    #[inline]
    fn stamp(&mut self, page: u32) -> u64
        requires can { CanMake (standing self.old) (Step.Stamp page) }
        requires room { wants (Step.Stamp page) ≤ spare_of self.old }
        ensures makes { Makes (standing self.old) (standing self.new) (Step.Stamp page) result }
        ensures home { home self.new ≡ home self.old }
    {
        self.make(Step::Stamp { page })
    }

    /// Takes the right of the page, whose deed is known as the directory. The actor has it where the page's bit of the answer is set.
    #[inline]
    fn take_right(&mut self, page: u32, directory: Directory) -> u64
        requires can { CanMake (standing self.old) (Step.TakeRight page directory) }
        requires room { wants (Step.TakeRight page directory) ≤ spare_of self.old }
        ensures makes { Makes (standing self.old) (standing self.new) (Step.TakeRight page directory) result }
        ensures home { home self.new ≡ home self.old }
    {
        self.make(Step::TakeRight { page, directory })
    }

    /// Offers the page, whose right is the actor's and whose deed is known as the directory, to any actor.
    #[inline]
    fn offer(&mut self, page: u32, directory: Directory) -> u64
        requires can { CanMake (standing self.old) (Step.Offer page directory) }
        requires room { wants (Step.Offer page directory) ≤ spare_of self.old }
        ensures makes { Makes (standing self.old) (standing self.new) (Step.Offer page directory) result }
        ensures home { home self.new ≡ home self.old }
    {
        self.make(Step::Offer { page, directory })
    }

    /// Parks the page, whose right is the actor's, as full. Looks at its four free words are owed.
    #[inline]
    fn park(&mut self, page: u32) -> u64
        requires can { CanMake (standing self.old) (Step.Park page) }
        requires room { wants (Step.Park page) ≤ spare_of self.old }
        ensures makes { Makes (standing self.old) (standing self.new) (Step.Park page) result }
        ensures home { home self.new ≡ home self.old }
    {
        self.make(Step::Park { page })
    }

    /// Takes the right of a parked page, whose deed is known. The actor has it where the page's bit of the answer is set.
    #[inline]
    fn unpark(&mut self, page: u32) -> u64
        requires can { CanMake (standing self.old) (Step.Unpark page) }
        requires room { wants (Step.Unpark page) ≤ spare_of self.old }
        ensures makes { Makes (standing self.old) (standing self.new) (Step.Unpark page) result }
        ensures home { home self.new ≡ home self.old }
    {
        self.make(Step::Unpark { page })
    }

    /// Tells the scavenger that the page may be empty.
    #[inline]
    fn hint(&mut self, page: u32) -> u64
        requires can { CanMake (standing self.old) (Step.Hint page) }
        requires room { wants (Step.Hint page) ≤ spare_of self.old }
        ensures makes { Makes (standing self.old) (standing self.new) (Step.Hint page) result }
        ensures home { home self.new ≡ home self.old }
    {
        self.make(Step::Hint { page })
    }

    /// Raises the epoch, which the actor knows then.
    #[inline]
    fn tick(&mut self, epoch: u64) -> u64
        requires can { CanMake (standing self.old) (Step.Tick epoch) }
        requires room { wants (Step.Tick epoch) ≤ spare_of self.old }
        ensures makes { Makes (standing self.old) (standing self.new) (Step.Tick epoch) result }
        ensures home { home self.new ≡ home self.old }
    {
        self.make(Step::Tick { epoch })
    }

    /// Ends the backing of the page, whose grains the actor holds, all of them, and whose stamp is old enough.
    #[inline]
    fn unback(&mut self, page: u32) -> u64
        requires can { CanMake (standing self.old) (Step.Unback page) }
        requires room { wants (Step.Unback page) ≤ spare_of self.old }
        ensures makes { Makes (standing self.old) (standing self.new) (Step.Unback page) result }
        ensures home { home self.new ≡ home self.old }
    {
        self.make(Step::Unback { page })
    }

    /// Clears the empty bit of the page. Where it was set the actor examines the page.
    #[inline]
    fn unhint(&mut self, page: u32) -> u64
        requires can { CanMake (standing self.old) (Step.Unhint page) }
        requires room { wants (Step.Unhint page) ≤ spare_of self.old }
        ensures makes { Makes (standing self.old) (standing self.new) (Step.Unhint page) result }
        ensures home { home self.new ≡ home self.old }
    {
        self.make(Step::Unhint { page })
    }

    /// The value of a word, if the desk tells the whole state and so may say it. No step is made.
    #[inline(always)]
    fn peek(&self, word: Word) -> Option<u64>
        requires { IsWordOf (standing self.now).seat.profile word }
        ensures { MatchOption result (Unit {0}) (TellsWord tells (standing self.now) word) }
    {
        let _ = word;
        None
    }

    /// Takes it that the actor made so many steps, if they changed nothing, as steps of which each is known beforehand. True where they are made
    /// from now on, and false where all is as it was. No step is made one by one.
    #[inline(always)]
    fn tell(&mut self, count: u64) -> bool
        ensures took { TookSteps result count (standing self.old) (standing self.new) }
        ensures home { home self.new ≡ home self.old }
    {
        let _ = count;
        false
    }

    /// The pages of the block of this number that are noted as short: some grain of theirs is free, and no run of so many grains from a multiple
    /// of the alignment on. No step is made.
    #[inline(always)]
    fn short_pages(&self, grains: u16, align: u16, block: u32) -> u64
        requires { block ≤ (standing self.now).seat.profile.pages / 64 }
        ensures { AreShort (standing self.now) grains align block result }
    {
        let _ = (grains, align, block);
        0
    }

    /// Notes the page as short, where it is and where the desk keeps such notes. No step is made.
    #[inline(always)]
    fn note_short(&mut self, grains: u16, align: u16, page: u32)
        requires { IsPage (standing self.old).seat.profile page }
        ensures still { StandsStill (standing self.old) (standing self.new) }
        ensures home { home self.new ≡ home self.old }
    {
        let _ = (grains, align, page);
    }

    /// The profile is within the limits.
    ghost valid: { (d : Self) → IsValid (standing d).seat.profile };

    /// The actor's room holds fewer than 2^32 events. So the blocks that it gives are few enough for `give` wherever there is room for
    /// one more event.
    ghost limited: { (d : Self) → (standing d).seat.room < 2 ^ 32 };

    /// What was forgotten and what is shown, one after the other, are the events of each view for which the desk stands, in order.
    ghost shows: { (d : Self) (v : View) (l : Whole) → (standing d).stands v l
        → ShowsRest (forgotten (home d)) (shown_of d) (events_of (standing d).seat.actor v) };

    /// The events of a view and the room that is left make up the whole room.
    ghost spares: { (d : Self) (v : View) (l : Whole) → (standing d).stands v l → spare_of d + length (events_of (standing d).seat.actor v) ≡ (standing d).seat.room };

    /// The count is the length of each view, up to the greatest number of 64 bits.
    ghost counts: { (d : Self) (v : View) (l : Whole) → (standing d).stands v l → count_of d ≡ min (length v) (2 ^ 64 - 1) };

    /// A desk that tells the whole state stands for legal lists ..
    ghost told: { (d : Self) (v : View) (l : Whole) → tells ≡ true → (standing d).stands v l → Legal (standing d).seat.profile l };

    /// .. and its view is the part of its actor.
    ghost told_part: { (d : Self) (v : View) (l : Whole) → tells ≡ true → (standing d).stands v l → part (standing d).seat.actor l ≡ v };
}
