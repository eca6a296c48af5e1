//! What the report of a region at rest says of the allocator's machine. Each law is the contract of an empty function.
ghost use Rattle.std.specs.Prelude.{◌≡◌, ◌≢◌, ◌<◌, ◌+◌, ◌*◌, ◌/◌, ℕ, not, true, false, None, Some};
ghost use Rattle.pas_profile.specs.{Profiles.{IsPage, IsValid}, declared.{profile.Profile.Profile, directory.Directory.Directory}};
ghost use Rattle.pas_machine.specs.State.{backed_in, deed_in};
ghost use Rattle.pas_steps.specs.{Lists.{Legal, Whole, visible}, States.profile_of, Views.usable_by_kind, declared.state.State.State};
ghost use Rattle.pas_core.specs.Rights.{AllClear};
ghost use Rattle.pas_report.specs.{Counts.{AreDeedWords, marked_in, report_by_words}, Reports.report_text};
ghost use Rattle.pas_records.specs.{Marks.marks_after, Covered.is_covered, Rests.{AreFreeOrCovered, AreStamped, HasWords, NobodyHasRights, NobodyHolds}};

/// Where the words of a region are those after a legal list of steps, each page's deed word is 0 or a directory's, and each page has the marks
/// that the list left. Where besides each grain is free or covered by a live block, as when no actor holds one, and each page is stamped, the
/// report by the words is the report of the machine that the visible events reach, with these marks.
pub fn reports_agree()
    ensures deeds { (state : State) (l : Whole) → HasWords state l → IsValid (profile_of state) → Legal (profile_of state) l → AreDeedWords state }
    ensures marks { (state : State) (l : Whole) → HasWords state l → IsValid (profile_of state) → Legal (profile_of state) l
        → (page : ℕ) → IsPage (profile_of state) page → marked_in state page ≡ marks_after l page }
    ensures nobody { (f : Profile) (l : Whole) → IsValid f → Legal f l → NobodyHolds l → AreFreeOrCovered f l }
    ensures report { (state : State) (l : Whole) → HasWords state l → IsValid (profile_of state) → Legal (profile_of state) l
        → AreFreeOrCovered (profile_of state) l → AreStamped (profile_of state) l
        → report_by_words state ≡ report_text (profile_of state) (visible l) (marks_after l) }
{}

/// After a legal list of steps a page is marked as backed exactly where the machine has it backed.
pub fn backed_pages_are_shown()
    ensures { (f : Profile) (l : Whole) → Legal f l → (page : ℕ) → (marks_after l page).backed ≡ backed_in (visible l) page }
{}

/// When no actor has the right of a page any more, each page with a deed is marked as offered or as parked, and never as both. So a
/// report at rest shows of each such page where its right is.
pub fn rights_are_shown()
    ensures { (f : Profile) (l : Whole) → IsValid f → Legal f l → NobodyHasRights l
        → (page : ℕ) → deed_in (visible l) page ≢ None → (marks_after l page).parked ≡ not ((marks_after l page).offered) }
{}

/// When besides no actor holds a grain or owes anything any more, each page is marked as offered on which some grain that blocks of its
/// directory may cover is not covered. So a report at rest loses no page that has room.
pub fn room_is_shown()
    ensures { (f : Profile) (l : Whole) → IsValid f → Legal f l → AreFreeOrCovered f l → AllClear f l → NobodyHasRights l
        → (page : ℕ) → IsPage f page → (d : Directory) → deed_in (visible l) page ≡ Some d
        → (b : ℕ) → b < 256 → usable_by_kind d.kind b ≡ true → is_covered (visible l) (256 * page + b) ≡ false
        → (marks_after l page).offered ≡ true }
{}

/// Where no actor holds a grain or owes anything any more, each backed page no grain of which is covered is marked as hinted. So a report at
/// rest loses no page whose memory can go back.
pub fn empty_pages_are_shown()
    ensures { (f : Profile) (l : Whole) → IsValid f → Legal f l → AreFreeOrCovered f l → AllClear f l
        → (page : ℕ) → IsPage f page → backed_in (visible l) page ≡ true → ((g : ℕ) → g / 256 ≡ page → is_covered (visible l) g ≡ false)
        → (marks_after l page).hinted ≡ true }
{}
