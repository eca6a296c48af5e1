//! What a search finds where nobody else is at work. The law is the contract of an empty function.
ghost use Rattle.std.specs.Prelude.{ℕ, List, Result};
ghost use Rattle.pas_profile.specs.{Profiles.{IsValid, IsDirectoryOf}, declared.{directory.Directory.Directory, event.NoRoom.NoRoom, profile.Profile.Profile}};
ghost use Rattle.pas_steps.specs.{Evidence.IsAntitone, Lists.Whole, declared.step.Made.Made};
ghost use Rattle.pas_core.specs.{Alone.{SearchesAlone, IsPlainAnswer}, Rights.AllRest};

/// What a request asks of a page. A back end says so of its requests.
pub trait Fitting {
    ghost use Rattle.pas_steps.specs.Evidence.{Readings};

    /// Nothing fits, where these are the grains of a page that are free.
    ghost no_fit: { Self → Readings → Type 0 };
}

/// Where all actors are at rest and none has a right, and one actor alone goes on with one search of a directory, the answer isn't `Held`,
/// and it is `NoSpace` exactly where no page was without a deed and no page that was offered to the directory fitted. What fits is any
/// matter where nothing fits among fewer free grains if nothing does among more.
pub fn a_lone_search_finds_what_there_is<W: Fitting>(wanted: &W)
    ensures { (f : Profile) (d : Directory) (k : ℕ) (l : Whole) (steps : List Made) (answer : Result ℕ NoRoom) → IsValid f → IsDirectoryOf f d → IsAntitone (W.no_fit wanted.now)
        → AllRest f l → SearchesAlone (W.no_fit wanted.now) f d k l steps answer → IsPlainAnswer (W.no_fit wanted.now) f d l answer }
{}
