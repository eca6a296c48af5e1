//! What every run of the machine keeps. Each law is the contract of an empty function.
ghost use Rattle.std.specs.Prelude.{List, ◌≡◌, ◌↔◌};
ghost use Rattle.pas_profile.specs.declared.{profile.Profile.Profile, event.Event.Event};
ghost use Rattle.pas_machine.specs.{Machine.{Run, Admits}, Reasons.{Applies, IsFirst}, Laws.{IsWhere, AreApart, AreCounted, AreBorne}};
ghost use Rattle.pas_machine.specs.declared.fault.Illegal.{Illegal};

/// Memory that one block has is never part of another: two blocks that live at different addresses have no grain in common.
/// A block lives at its own address.
#[tactic(auto, using(crate::proofs::LiveBlocks::lives_where, crate::proofs::LiveBlocks::live_apart))]
pub fn blocks_are_apart()
    ensures at_home { (f : Profile) (es : List Event) → Run f es → IsWhere es }
    ensures apart { (f : Profile) (es : List Event) → Run f es → AreApart es }
{}

/// A block stays on backed pages with deeds of its heap as long as it lives. So memory of one heap is never memory of another.
pub fn blocks_are_borne()
    ensures { (f : Profile) (es : List Event) → Run f es → AreBorne f es }
{}

/// At each address, the blocks that were given are those that ended and the one that lives. So each block ends at most once, and
/// no name is given twice.
#[tactic(auto, using(crate::proofs::LiveBlocks::all_counted))]
pub fn blocks_are_counted()
    ensures { (f : Profile) (es : List Event) → Run f es → AreCounted es }
{}

/// What may come next and why an event may not are said apart, and agree: an event may come next in a run exactly where none of
/// the eleven reasons applies to it. Where some apply, one of them is the first.
#[tactic(auto, using(crate::proofs::Verdicts::admits_of, crate::proofs::Verdicts::never_of, crate::proofs::Verdicts::one_first))]
pub fn reasons_are_complete()
    ensures none { (f : Profile) (es : List Event) → Run f es → (e : Event) → ((reason : Illegal) → Applies f es e reason → ⊥) ↔ Admits f es e }
    ensures one { (f : Profile) (es : List Event) (e : Event) (reason other : Illegal) → IsFirst f es e reason → IsFirst f es e other → reason ≡ other }
{}
