//! What holds of a guard that is up, whatever others do. Each law is the contract of an empty function.
ghost use Rattle.std.specs.Prelude.{ℕ, ◌/◌, ◌≡◌, Bool, true, List, [], ◌∷◌, ◌++◌, Contains, Option};
ghost use Rattle.pas_profile.specs.{Profiles.IsValid, declared.{directory.Directory.Directory, profile.Profile.Profile, name.Block.Block}};
ghost use Rattle.pas_profile.specs.declared.guard.Guard.{Guard as TheGuard};
ghost use Rattle.pas_steps.specs.{Agreement.Agreed, Past.{Always, Since}, Views.{View, KnowsDeed}, Lists.{Triple, Whole, Legal, part}, declared.step.Made.Made};
ghost use Rattle.pas_large.specs.Claims.{StaysPut};
ghost use Rattle.pas_guard.specs.{Evidence.BackedReadHere, Seeks.LeftSince, Raises.BacksNot, Sweeps.Swept, Guarded.{StandsGuard, KeepsGuard, AreUntouched}};
ghost use Rattle.pas_guard.specs.{Books.{is_outer_of, is_outer, AreApart, FitsBook}, Keepers.{Call, MakesCall, MakesCalls, GivesBlockOf, PutsNoneOf, IsUpIn}};
ghost use Rattle.pas_guard.specs.Keepers.{IsUpThrough, IsKeeper, IsBeside, GivesGuarded, StandsThrough};
ghost use Rattle.pas_records.specs.declared.record.Record.{Record};

/// However the steps of all actors fall between each other, and whatever the others do: where an actor, the keeper, makes no steps but those of calls of
/// `raise` and `sweep` with its one book, then from the give of a raise until the first put of its lowering both outer pages of the guard are held whole by
/// the keeper, have deeds of the block's heap, stand right before and right behind the block, and aren't backed. Nobody backs one meanwhile, and no block is
/// given on one.
///
/// By the calls alone: in each legal list whose part of the keeper is whole calls and the first steps of one more, from each give of the keeper on until it
/// puts a grain of one of the two pages beside the block. And so at any places at which a guard is up.
pub fn outer_pages_stay_bare()
    ensures given { (f : Profile) (keeper : ℕ) (guard : TheGuard) (later newer older : Whole) (give : Triple) → IsValid f
        → Legal f (later ++ (newer ++ (give ∷ older))) → IsKeeper f keeper (part keeper (later ++ (newer ++ (give ∷ older))))
        → GivesGuarded keeper guard give → Always (PutsNoneOf guard) (part keeper newer) → StandsThrough keeper guard newer (give ∷ older) }
    ensures up { (f : Profile) (keeper : ℕ) (guard : TheGuard) (later newer older : Whole) → IsValid f → Legal f (later ++ (newer ++ older))
        → IsUpThrough f keeper guard later newer older → StandsThrough keeper guard newer older }
{}

/// When a guard is up, step by step: from the give of its raise on; after each step more, unless that puts a grain of an outer page of it; and at the
/// start of the next call, where it was up to the end of one. So it is up without a break until a grain of an outer page is put. It is in the book after
/// each call until then: the raise that gives a block puts it there, with the two pages beside it. Of the calls that find a guard in the book only the sweep
/// that takes it out moves a grain of its outer pages: a call that leaves it there moves none.
pub fn guards_are_up_until_lowered()
    ensures begins { (heap pages : ℕ) (answer : Option Block) (guards guards' : List TheGuard) (guard : TheGuard) (m : Made) (first : List Made)
        → Contains guards' guard → GivesBlockOf guard m first → IsUpIn (Call.Raise heap pages answer) guards guards' guard (m ∷ first) }
    ensures stays { (call : Call) (guards guards' : List TheGuard) (guard : TheGuard) (m : Made) (first : List Made)
        → IsUpIn call guards guards' guard first → PutsNoneOf guard m first → IsUpIn call guards guards' guard (m ∷ first) }
    ensures next { (f : Profile) (keeper : ℕ) (call next : Call) (guards guards' later : List TheGuard) (guard : TheGuard) (steps : List Made)
        → MakesCall f keeper call guards guards' steps → IsUpIn call guards guards' guard steps → IsUpIn next guards' later guard [] }
    ensures booked { (f : Profile) (keeper : ℕ) (calls : List Call) (guards : List TheGuard) (guard : TheGuard) (m : Made) (newer older : List Made)
        → MakesCalls f keeper calls guards (newer ++ (m ∷ older)) → GivesBlockOf guard m older → IsBeside guard
        → Always (PutsNoneOf guard) newer → Contains guards guard }
    ensures kept { (f : Profile) (keeper : ℕ) (call : Call) (guards guards' : List TheGuard) (guard : TheGuard) (v : View) (steps : List Made)
        → FitsBook f guards v → Agreed f v steps → MakesCall f keeper call guards guards' steps → Contains guards guard → Contains guards' guard
        → (g : ℕ) → is_outer_of guard (g / 256) ≡ true → StaysPut g steps }
{}

/// However the steps of all actors fall between each other: from the place where a keeper holds all grains of a page that isn't backed, for as long as
/// the keeper moves none of its grains and doesn't back it, nobody backs the page and no block is given on it. So at each place up to there the keeper
/// still holds the whole page, its deed is the same, and it isn't backed.
pub fn guards_stand()
    ensures stands { (f : Profile) (older newer : Whole) (keeper page : ℕ) (d : Directory) → IsValid f → Legal f (newer ++ older) → StandsGuard older keeper page d → KeepsGuard keeper page newer → StandsGuard (newer ++ older) keeper page d }
    ensures untouched { (f : Profile) (older newer : Whole) (keeper page : ℕ) (d : Directory) → IsValid f → Legal f (newer ++ older) → StandsGuard older keeper page d → KeepsGuard keeper page newer → AreUntouched page newer }
{}

/// Where the steps that a keeper made move no grain of the page and don't back it, it left the guard as it is, whatever others did between them.
pub fn calls_keep_guards()
    ensures { (keeper page : ℕ) (newer : Whole) → ((g : ℕ) → g / 256 ≡ page → StaysPut g (part keeper newer)) → BacksNot page (part keeper newer) → KeepsGuard keeper page newer }
{}

/// A sweep moves no grain of an outer page of a guard that stays up.
pub fn sweeps_keep_guards()
    ensures { (all : Bool) (k : ℕ) (guards kept : List TheGuard) (said : List Record) (steps : List Made) → AreApart guards → Swept all k guards kept said steps → (g : ℕ) → is_outer kept (g / 256) ≡ true → StaysPut g steps }
{}

/// A guard stands from where a keeper that held the whole page read it as not backed, as long as it left the page alone since, whatever others did: in the
/// list of all steps whose part of the keeper is its view and then these steps.
pub fn guards_begin()
    ensures { (f : Profile) (l : Whole) (keeper page : ℕ) (d : Directory) (v : View) (steps : List Made) → IsValid f → Legal f l → part keeper l ≡ steps ++ v → Since (BackedReadHere v page 0) (LeftSince page) steps → KnowsDeed page d (part keeper l) → StandsGuard l keeper page d }
{}
