//! What holds after every legal list of steps, whoever made them. Each law is the contract of an empty function.
ghost use Rattle.std.specs.Prelude.{ℕ, ◌<◌, ◌≤◌, ◌≡◌, ◌≢◌, ◌/◌, true, false, List, ◌∷◌, ◌++◌, length, ◌⊎◌, []};
ghost use Rattle.pas_profile.specs.{Profiles.{IsValid, IsPage}, declared.{profile.Profile.Profile, name.Block.Block, event.Event.Event}};
ghost use Rattle.pas_profile.specs.declared.event.Event.TheVariants as Event;
ghost use Rattle.pas_machine.specs.{Machine.{Admits, Run}, Laws.{AreApart, AreBorne}, State.{gives_in, epoch_in}};
ghost use Rattle.pas_profile.specs.declared.word.Word.TheVariants as Word;
ghost use Rattle.pas_steps.specs.{Allowed.HoldsOn, Events.events_of, Desks.triples, Views.{View, holds, has_right, is_unstamped, given_count}, Lists.Whole};
ghost use Rattle.pas_steps.specs.{Lists.{Legal, part, visible, word_after}, declared.step.Made.Made};
ghost use Rattle.pas_core.specs.{Good.{AgreesWithWords, IsInOnePlace, IsPlacedOnce}, Given.WasGiven, Stamps.{EachEnd, IsStampedOr, AllKeepToEnds}};
ghost use Rattle.pas_core.specs.{Hints.{IsEmptyBacked, IsMinded}, Rights.{parked_bit, empty_bit, eligible_bit, IsRightInOnePlace, IsRightOffered}};
ghost use Rattle.pas_core.specs.Rights.{IsUsableFree, IsOwed, IsRightParked, NobodyHasRight, NobodyOwes, AllClear};

pub use crate::knowledge_laws::{answers_agree, known_is_true, one_right, untouched};
pub use crate::lone_laws::{Fitting, a_lone_search_finds_what_there_is};
pub use crate::order_laws::{steps_extend_one_part, words_follow};

/// However the steps of the actors fall between each other, what they did is a run of the machine: each block was given where no
/// other lived, on backed pages of its heap and under a name of its own, each end ended the very block of its name, and each
/// refusal had its true reason.
#[tactic(auto, using(crate::proofs::MachineRuns::runs))]
pub fn events_run()
    ensures { (f : Profile) (l : Whole) → IsValid f → Legal f l → Run f (visible l) }
{}

/// The words of the region say exactly what the machine says: of each page its deed and whether it is backed, of each grain the block
/// that lives there and how many ended there. So an actor that reads a word reads the machine's state.
#[tactic(auto, using(crate::proofs::MachineRuns::agrees))]
pub fn agrees()
    ensures { (f : Profile) (l : Whole) → IsValid f → Legal f l → AgreesWithWords f l }
{}

/// Each grain is free, or held by exactly one actor, or part of exactly one live block. So no memory is given twice, none is lost,
/// and what an actor holds nobody else has.
#[tactic(auto, using(crate::proofs::MachineRuns::in_one_place, crate::proofs::Grains::placed_once))]
pub fn placed()
    ensures place { (f : Profile) (l : Whole) → IsValid f → Legal f l → (g : ℕ) → IsInOnePlace l g }
    ensures words { (f : Profile) (l : Whole) → IsValid f → Legal f l → (g : ℕ) → IsPlacedOnce l g }
{}

/// The right of each page that has a deed is in exactly one place: one actor has it, or the page's bit is set in the eligible vector of
/// its own directory, or its parked bit is set. A page without a deed has none of these. So no right is lost and none is doubled,
/// no bit of a page is set in the vector of another directory, and no actor finds a right offered or parked that another has.
#[tactic(auto, using(crate::proofs::Rights::right_in_one_place))]
pub fn one_place_of_a_right()
    ensures { (f : Profile) (l : Whole) → Legal f l → (page : ℕ) → IsRightInOnePlace f l page }
{}

/// A parked page isn't forgotten: where it has a free grain that blocks of its directory may cover, some actor owes a look at that free
/// word. So once no actor owes a check, a parked page has nothing to give.
#[tactic(auto, using(crate::proofs::Offers::parked_is_owed))]
pub fn parked_pages_are_checked()
    ensures { (f : Profile) (l : Whole) → Legal f l → (page word bit : ℕ) → parked_bit l page ≡ true → IsUsableFree l page word bit → IsOwed l page word }
{}

/// However late an actor stamps the pages of a block that it ended: the epoch of each end on a page is at most the page's stamp, or the page is
/// unstamped for the actor that made the end, which knows an epoch at least as great. An actor holds a grain of each page that is unstamped
/// for it. So whoever holds all grains of a page reads a stamp that no end on the page is past.
#[tactic(auto, using(crate::proofs::Lives::ends_stamped, crate::proofs::Lives::unstamped_is_held, crate::proofs::Lives::ends_before))]
pub fn ends_are_stamped()
    ensures ends { (f : Profile) (l : Whole) → IsValid f → Legal f l → (page : ℕ) → EachEnd (IsStampedOr l page) (visible l) page }
    ensures held { (f : Profile) (l : Whole) → Legal f l → (k page : ℕ) → is_unstamped (part k l) page ≡ true → HoldsOn (part k l) page }
    ensures before { (f : Profile) (l : Whole) → IsValid f → Legal f l → (k page : ℕ) → ((g : ℕ) → g / 256 ≡ page → holds (part k l) g ≡ true) → is_unstamped (part k l) page ≡ false → epoch_in (visible l) page ≤ word_after l (Word.Stamp page) }
{}

/// Where each actor learns no epoch between an end and its stamps, and stamps only pages on which it ended a block since, the stamp of a page is
/// just the greatest epoch of an end on it, once the page is unstamped for nobody.
#[tactic(auto, using(crate::proofs::Lives::stamps_are_ends))]
pub fn stamps_are_ends()
    ensures { (f : Profile) (l : Whole) → IsValid f → Legal f l → AllKeepToEnds l → (page : ℕ) → ((k : ℕ) → is_unstamped (part k l) page ≡ false) → word_after l (Word.Stamp page) ≡ epoch_in (visible l) page }
{}

/// No empty page is forgotten: where a page is backed and each of its grains is free, its empty bit is set, or some actor owes its hint, or
/// some actor examines it.
#[tactic(auto, using(crate::proofs::Offers::empty_is_minded))]
pub fn empty_pages_are_minded()
    ensures { (f : Profile) (l : Whole) → IsValid f → Legal f l → (page : ℕ) → IsEmptyBacked l page → IsMinded l page }
{}

/// Once each actor is clear nothing is lost: a page with a deed and a free grain that its blocks may cover, whose right nobody has, is
/// offered, and a page that is backed and each of whose grains is free is hinted.
#[tactic(auto, using(crate::proofs::Offers::offered_at_rest, crate::proofs::Offers::hinted_at_rest))]
pub fn nothing_is_lost()
    ensures offered { (f : Profile) (l : Whole) → Legal f l → AllClear f l → (page word bit : ℕ) → word < 4 → word_after l (Word.Deed page) ≢ 0 → IsUsableFree l page word bit → NobodyHasRight l page → IsRightOffered f l page }
    ensures hinted { (f : Profile) (l : Whole) → IsValid f → Legal f l → AllClear f l → (page : ℕ) → IsEmptyBacked l page → empty_bit l page ≡ true }
{}

/// A page can be unbacked: in every region some legal list does it.
#[tactic(auto, using(crate::proofs::MachineRuns::can_unback))]
pub fn unbacks_happen()
    ensures { (f : Profile) → IsValid f → (l : Whole) × Legal f l × (more : List Event) × (visible l ≡ Event.Unback 0 1 f.age ∷ more) }
{}

/// No page with room is lost: where a page with a deed has a free grain that blocks of its directory may cover, while no actor has the page's
/// right and no actor owes a look at that free word, the page is offered to its directory.
#[tactic(auto, using(crate::proofs::Offers::free_is_offered))]
pub fn free_pages_are_offered()
    ensures { (f : Profile) (l : Whole) → Legal f l → (page word bit : ℕ) → word_after l (Word.Deed page) ≢ 0 → IsUsableFree l page word bit
        → NobodyHasRight l page → NobodyOwes l page word → IsRightOffered f l page }
{}

/// While one actor alone goes on after a list at whose end nobody has the right of a page, the page is offered or parked wherever it has a deed
/// and that actor hasn't its right. So what it reads as neither is its own.
#[tactic(auto, using(crate::proofs::Offers::lone_right))]
pub fn a_lone_actor_misses_no_right()
    ensures { (f : Profile) (l : Whole) (k : ℕ) (steps : List Made) → Legal f (triples k steps ++ l) → (page : ℕ) → NobodyHasRight l page
        → word_after (triples k steps ++ l) (Word.Deed page) ≢ 0 → has_right (part k (triples k steps ++ l)) page ≡ false
        → IsRightOffered f (triples k steps ++ l) page ⊎ IsRightParked (triples k steps ++ l) page }
{}

/// The actors of a list are the scavenger and the threads of the profile: any other made no step.
#[tactic(auto, using(crate::proofs::Offers::no_other_actor))]
pub fn actors_are_few()
    ensures { (f : Profile) (l : Whole) → Legal f l → (k : ℕ) → f.threads < k → part k l ≡ [] }
{}

/// Each bit that is set in a page vector is that of a page of the region: never that of page 0 or of one past the last.
#[tactic(auto, using(crate::proofs::Rights::offered_page, crate::proofs::Rights::parked_page, crate::proofs::Rights::hinted_page))]
pub fn bits_of_pages()
    ensures parked { (f : Profile) (l : Whole) → Legal f l → (page : ℕ) → parked_bit l page ≡ true → IsPage f page }
    ensures empty { (f : Profile) (l : Whole) → Legal f l → (page : ℕ) → empty_bit l page ≡ true → IsPage f page }
    ensures eligible { (f : Profile) (l : Whole) → Legal f l → (number page : ℕ) → eligible_bit l number page ≡ true → IsPage f page }
{}

/// A live block lies on backed pages with deeds of its heap as long as it lives, and shares no grain with another live block.
#[tactic(auto, using(crate::proofs::MachineRuns::lists_apart))]
pub fn live_on_backed()
    ensures backed { (f : Profile) (l : Whole) → IsValid f → Legal f l → AreBorne f (visible l) }
    ensures apart { (f : Profile) (l : Whole) → IsValid f → Legal f l → AreApart (visible l) }
{}

/// A name stands for its block for good: from its give on, no other block ever lives under that name, so its room and its heap stay
/// what they were.
#[tactic(auto, using(crate::proofs::Lives::new_block))]
pub fn names_last()
    ensures new { (f : Profile) (k : ℕ) (block : Block) (es : List Event) → Admits f es (Event.Give k block) → WasGiven (Event.Give k block ∷ es) block }
    ensures kept { (f : Profile) (more es : List Event) (block : Block) → Run f (more ++ es) → WasGiven es block → WasGiven (more ++ es) block }
{}

/// Turns are small: a name's turn is the number of blocks that were given at its address before, which is at most the number of
/// events so far, and an actor gave at most as many blocks as it has events.
#[tactic(auto, using(crate::proofs::Lives::turns_few, pas_steps::proofs::Frames::given_le))]
pub fn few_gives()
    ensures turns { (es : List Event) (address : ℕ) → gives_in es address ≤ length es }
    ensures own { (k : ℕ) (v : View) → given_count v ≤ length (events_of k v) }
{}
