//! What a search finds where no other actor makes a step meanwhile, whatever its desk tells. Each law is the contract of an empty function.
ghost use Rattle.std.specs.Prelude.{ℕ, ◌+◌, ◌*◌, ◌/◌, ◌<◌, ◌≡◌, true, ◌||◌, List, ◌++◌, Result};
ghost use Rattle.pas_profile.specs.{Profiles.IsDirectoryOf, declared.{directory.Directory.Directory, event.NoRoom.NoRoom, profile.Profile.Profile}};
ghost use Rattle.pas_profile.specs.declared.word.Word.{Word};
ghost use Rattle.pas_steps.specs.{Agreement.Agreed, Desks.triples, Past.{Once, Always}, Views.{View, holds}, Evidence.{Readings, ShowsHere, GetsHere}};
ghost use Rattle.pas_steps.specs.{Evidence.NoDeedHere, Lists.{Whole, part, word_after, Legal}, declared.step.Made.Made};
ghost use Rattle.pas_scan.specs.Usable.{MakesNoDeedHere};
ghost use Rattle.pas_core.specs.{Alone.{ShowsAnswer, IsPlainAnswer}, Rights.{AllRest, eligible_bit, free_of_page}};
ghost use Rattle.pas_search.specs.{Alone.{IsLone, page_found}, Searches.{MaySearch, Searches}, Telling.IsTold, declared.serving.Served.Served as TheServed};

use crate::serving::Serving;
use pas_steps::Desk;

/// What a search promises is what the law of the lone search asks of its steps: a page that was read as offered and as fitting, or a deed that was
/// made; or readings by which no page could serve, and of a page that is called held those by which it is neither offered nor parked.
pub fn a_search_shows_its_answer<S: Serving, D: Desk>(serving: &S, desk: &D, later: &D)
    ensures { (d : Directory) (answer : Result (TheServed S.Found) NoRoom) (call : Searches (S.rule serving.now) D.tells d (D.standing desk.now) (D.standing later.now) answer) (v : View)
        → MaySearch d v → Agreed (D.standing desk.now).seat.profile v call.steps → ShowsAnswer (S.rule serving.now).no_fit (D.standing desk.now).seat.profile d v call.steps (page_found answer) }
{}

/// Where the steps of a search stand together in a legal list, which is so where no other actor made a step meanwhile, its answer is true of the states
/// before and after it: it found the lowest page that serves, and it is refused only where none could serve, for the true reason. Where all actors were at
/// rest before and none had a right, it isn't answered by `Held`, and by `NoSpace` exactly where no page could serve.
pub fn a_lone_search_finds_what_there_is<S: Serving, D: Desk>(serving: &S, desk: &D, later: &D)
    ensures told { (d : Directory) (answer : Result (TheServed S.Found) NoRoom) (call : Searches (S.rule serving.now) D.tells d (D.standing desk.now) (D.standing later.now) answer) (l : Whole)
        → IsDirectoryOf (D.standing desk.now).seat.profile d → Legal (D.standing desk.now).seat.profile (triples (D.standing desk.now).seat.actor call.steps ++ l) → MaySearch d (part (D.standing desk.now).seat.actor l)
        → IsTold (λ (s : TheServed S.Found). s.page) (S.rule serving.now).no_fit (D.standing desk.now).seat.profile d l (triples (D.standing desk.now).seat.actor call.steps ++ l) answer }
    ensures plain { (d : Directory) (answer : Result (TheServed S.Found) NoRoom) (call : Searches (S.rule serving.now) D.tells d (D.standing desk.now) (D.standing later.now) answer) (l : Whole)
        → IsDirectoryOf (D.standing desk.now).seat.profile d → Legal (D.standing desk.now).seat.profile (triples (D.standing desk.now).seat.actor call.steps ++ l) → MaySearch d (part (D.standing desk.now).seat.actor l)
        → AllRest (D.standing desk.now).seat.profile l → IsPlainAnswer (S.rule serving.now).no_fit (D.standing desk.now).seat.profile d l (page_found answer) }
{}

/// What the steps of an actor alone read was there before them, where they give and end no block, and give back only what they got. A reading of a free word, made
/// with the page's right, shows which grains were free, those that the steps had taken counted as free; and so do the words after the steps. A page whose deed
/// they don't make was offered before them if they got its right, or if it is offered after them. A page that they read as without a deed had none.
pub fn lone_steps_read_what_there_was()
    ensures shown { (f : Profile) (k : ℕ) (l : Whole) (steps : List Made) (page b : ℕ) (r : Readings) → IsLone f k l steps → b < 256 → Once (ShowsHere page (b / 64) r) steps → r b ≡ free_of_page l page b }
    ensures free { (f : Profile) (k : ℕ) (l : Whole) (steps : List Made) (page b : ℕ) → IsLone f k l steps → (free_of_page (triples k steps ++ l) page b || holds steps (page * 256 + b)) ≡ free_of_page l page b }
    ensures got { (f : Profile) (k : ℕ) (l : Whole) (steps : List Made) (page : ℕ) → IsLone f k l steps → Always (MakesNoDeedHere page) steps → Once (GetsHere page) steps → (n : ℕ) × (eligible_bit l n page ≡ true) }
    ensures offered { (f : Profile) (k : ℕ) (l : Whole) (steps : List Made) (page m : ℕ) → IsLone f k l steps → Always (MakesNoDeedHere page) steps → eligible_bit (triples k steps ++ l) m page ≡ true → (n : ℕ) × (eligible_bit l n page ≡ true) }
    ensures bare { (f : Profile) (k : ℕ) (l : Whole) (steps : List Made) (page : ℕ) → IsLone f k l steps → Once (NoDeedHere page) steps → word_after l (Word.Deed page) ≡ 0 }
{}
