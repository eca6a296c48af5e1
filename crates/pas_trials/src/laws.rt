//! What comes of a call that ends too early: nobody is at rest then, so no contract that promises rest can be met by it. Each law is the
//! contract of an empty function.
ghost use Rattle.std.specs.Prelude.{ℕ, ◌≡◌, ◌<◌, true, false};
ghost use Rattle.pas_profile.specs.{Profiles.IsValid, declared.profile.Profile.Profile};
ghost use Rattle.pas_steps.specs.Lists.{Whole, Legal};
ghost use Rattle.pas_core.specs.{Hints.IsEmptyBacked, Rights.{parked_bit, empty_bit, IsUsableFree, IsRightOffered, AllClear}};
ghost use Rattle.pas_trials.specs.Unfinished.{ParkingOwes, LookingOwes};

/// A leave that ends with the parking, with no look after it, still owes looks at the page. And it has to: wherever a page is parked
/// that has a free grain which its blocks may cover, as after a free between the looks and the parking, the page isn't offered, and not all actors are
/// at rest.
pub fn a_parked_page_is_looked_at_again()
    ensures owed { ParkingOwes }
    ensures lost { (f : Profile) (l : Whole) → Legal f l → (page word bit : ℕ) → word < 4 → parked_bit l page ≡ true → IsUsableFree l page word bit → (IsRightOffered f l page → ⊥) × (AllClear f l → ⊥) }
{}

/// Where grains were put back and each look showed the page as free and backed, an actor that doesn't hint it still owes the hint. And it has
/// to: wherever an empty page is backed and not hinted, not all actors are at rest.
pub fn an_empty_page_is_hinted()
    ensures owed { LookingOwes }
    ensures lost { (f : Profile) (l : Whole) → IsValid f → Legal f l → (page : ℕ) → IsEmptyBacked l page → empty_bit l page ≡ false → AllClear f l → ⊥ }
{}
