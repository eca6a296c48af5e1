//! What each act owes: from a state of the text that is the replay's it leads to one that is. Each law is the contract of an empty function.
ghost use Rattle.std.specs.Prelude.{ℕ, ◌+◌, ◌*◌, ◌<◌, ◌≤◌, ◌≡◌, ◌↔◌, List, [], ◌∷◌, ◌++◌, length, true, None, Some, Ok, ◌||◌, false};
ghost use Rattle.pas_profile.specs.declared.{name.Name.Name, profile.Profile.Profile, directory.{Route.Route, Directory.Directory}, event.NoRoom.NoRoom};
ghost use Rattle.pas_profile.specs.{declared.{event.Event.Event, entry.Entry.Entry}, Requests.route_in, Directories.number_of, Profiles.{IsValid, IsAdmitted}};
ghost use Rattle.pas_profile.specs.Profiles.{IsPage, IsDirectoryOf};
ghost use Rattle.pas_trace.specs.{Acts.Act, EveryPlan.IsThread, Plans.IsPlanOf, declared.plan.What.TheVariants.{Alloc, Flush, Free, FreeSized, Raw, RawSized}};
ghost use Rattle.pas_trace.specs.declared.{plan.{What.TheVariants.Stop, Plan.Plan}, item.Request.Request};
ghost use Rattle.pas_search.specs.{Kinds.ReturnsDuly, Telling.IsTrueReason, Searches.{FromOffered, ByDeed}};
ghost use Rattle.pas_machine.specs.Machine.{Run};
ghost use Rattle.pas_free_log.specs.declared.{ending.Outcome.Outcome, noting.EndedRun.EndedRun};
ghost use Rattle.pas_same_text.specs.{Frees.{ends, flushes}, Searches.{refusal, searched}, Reports.text_of, State.{World, each}, Indexes.named_first};
ghost use Rattle.pas_same_text.specs.{Same.{IsSame, lives_in, ArePagesSame}, Requests.RequestStaysSame, Told.IsTold, Searched.IsSearch, Words.free_bit};
ghost use Rattle.pas_same_text.specs.{Known.{ArePlanned, IsCarried, AreKnown, KeepsSame}, Order.{acts_on, opened, replayed, order_text}, Entries.IsShown};
ghost use Rattle.pas_same_text.specs.{Entries.{IsEntryEvent, HaveOutcomes, events_of_flush, are_unsized, onto, HasShown, IsFlushOf}, Runs.{large_of, is_whole}};
ghost use Rattle.pas_same_text.specs.{Runs.{is_usable, named_run, lowest_run}, Pages.{is_free, is_kept, is_offered, has_room, is_guarded}, Acts.IsBetween};
ghost use Rattle.pas_same_text.specs.Acts.{IsAtRest, IsTaken, StaysSame, StaysSameWhere, HasUsableBlocks, KeepsUsable, AreEndsStamped, KeepsStamped};
ghost use Rattle.pas_same_text.specs.Acts.{KeepsIndexes, HasLogRoom, HasCachedSlot};
ghost use Rattle.pas_answers.specs.{Indexes.{ActIsNamedBy, indexes_after_all}, Reaching.Reaches, Ways.InOrder, Answers.Progress, Replays.{IsReplay, at_start}};
ghost use Rattle.pas_answers.specs.Replays.{phases_of, region_of, threads_of, keepers_of, acts_of_plan};
ghost use Rattle.pas_records.specs.{Lines.lines_of, Marks.marks_after, Rests.{AreStamped, AreTrueMarks}, declared.record.Record.Record};
ghost use Rattle.pas_report.specs.Reports.{report_text};
ghost use Rattle.pas_large.specs.{Doors.{Indexes, no_ranges}, Finds.{MayFind, FoundRun, finding}, Telling.{IsWholePage, IsUsablePage, HasNoUsableRun}};
ghost use Rattle.pas_large.specs.Telling.{IsLowestRun, IsNamedWhole};
ghost use Rattle.pas_steps.specs.{Kinds.Only, Past.Always, Desks.triples, Views.has_right, Lists.{Whole, part, visible, Legal}, declared.step.Made.Made};
ghost use Rattle.pas_core.specs.Rights.{eligible_bit, free_of_page};

use pas_core::laws::Fitting;

/// A mark is a line.
#[tactic(auto, using(crate::proofs::SmallActs::phase_same, crate::proofs::SmallActs::close_same))]
pub fn marks_stay_the_same()
    ensures phase { (f : Profile) (n : ℕ) → StaysSame f (Act.MarksPhase n) }
    ensures close { (f : Profile) → StaysSame f Act.MarksClose }
{}

/// A thread that begins a phase has read the epoch of the text, and so has the scavenger for an idle operation. A tick raises that epoch.
pub fn epochs_stay_the_same()
    ensures wakes { (f : Profile) (k : ℕ) → IsThread f k → StaysSame f (Act.Wakes k) }
    ensures reads { (f : Profile) → StaysSame f Act.ReadsEpoch }
    ensures ticks { (f : Profile) (asked : ℕ) → StaysSame f (Act.Ticks asked) }
{}

/// What a thread noted goes from its cache.
#[tactic(auto, using(crate::proofs::SmallActs::settling_same))]
pub fn settling_stays_the_same()
    ensures { (f : Profile) (k : ℕ) → IsThread f k → StaysSame f (Act.Settles k) }
{}

/// A free into a log with room is logged at its end, or it is answered at once: since its page is none of the region's or its address is no grain's, or since the
/// request of its name was refused.
pub fn frees_stay_the_same()
    ensures raw { (f : Profile) (line k : ℕ) (block : Name) → IsThread f k → StaysSameWhere (HasLogRoom k) f (Act.Operates (record { line = line; actor = k; what = Raw block })) }
    ensures raw_sized { (f : Profile) (line k room : ℕ) (block : Name) → IsThread f k → StaysSameWhere (HasLogRoom k) f (Act.Operates (record { line = line; actor = k; what = RawSized room block })) }
    ensures named { (f : Profile) (line k name : ℕ) → IsThread f k → StaysSameWhere (HasLogRoom k) f (Act.Operates (record { line = line; actor = k; what = Free name })) }
    ensures named_sized { (f : Profile) (line k name room : ℕ) → IsThread f k → StaysSameWhere (HasLogRoom k) f (Act.Operates (record { line = line; actor = k; what = FreeSized name room })) }
{}

/// Whenever all actors are at rest, and the events, the live blocks, the caches and the guards are the same: a grain is free in the text exactly where its bit is set, or where its page is
/// an outer one of a guard, whose keeper has it then; and a page is kept exactly where some actor has its right. A page with room that nobody keeps and no guard has is offered, and an
/// offered page is offered in the text where it has room and no guard has it.
pub fn states_are_told()
    ensures free { (f : Profile) (p : Progress) (w : World) → IsAtRest f p w → (page b : ℕ) → b < 256 → is_free w page b ≡ (free_bit p.list (256 * page + b) || is_guarded w page) }
    ensures kept { (f : Profile) (p : Progress) (w : World) → IsAtRest f p w → (page : ℕ) → is_kept w page ≡ true → (k : ℕ) × (has_right (part k p.list) page ≡ true) }
    ensures keeps { (f : Profile) (p : Progress) (w : World) → IsAtRest f p w → (k page : ℕ) → has_right (part k p.list) page ≡ true → is_kept w page ≡ true }
    ensures offered { (f : Profile) (p : Progress) (w : World) → IsAtRest f p w → (page : ℕ) (d : Directory) → IsDirectoryOf f d → is_offered w d page ≡ true → eligible_bit p.list (number_of d) page ≡ true }
    ensures offers { (f : Profile) (p : Progress) (w : World) → IsAtRest f p w → (page : ℕ) (d : Directory) → IsDirectoryOf f d → eligible_bit p.list (number_of d) page ≡ true → is_guarded w page ≡ false → has_room w d page ≡ true → is_offered w d page ≡ true }
{}

/// A request of a class for which the thread's cache has a slot gives the lowest one, in the same name, and the local allocator is the one used last.
pub fn cached_slots_stay_the_same()
    ensures { (f : Profile) (line k name heap size align class : ℕ) → IsThread f k → route_in f size align ≡ Route.Class class
        → StaysSameWhere (HasCachedSlot heap class k) f (Act.Operates (record { line = line; actor = k; what = Alloc name heap size align })) }
{}

/// Whatever event the allocator's machine allows for a logged free, it is the one that the text shows for it: the end of its block, or the true reason why none ends. So a flush
/// of frees that name no room shows one event for each, in the order of the log.
pub fn logged_frees_show_the_same()
    ensures one { (f : Profile) (k : ℕ) (entry : Entry) (w : World) → w.live ≡ lives_in w.events → (e : Event) → Run f (e ∷ w.events) → IsEntryEvent k entry w e → IsShown e w (ends f k entry w) }
    ensures all { (f : Profile) (k epoch : ℕ) (entries : List Entry) (outcomes : List Outcome) (w : World) → HaveOutcomes entries outcomes → are_unsized entries ≡ true → w.live ≡ lives_in w.events → w.epoch ≡ epoch
        → Run f (onto (events_of_flush k epoch entries outcomes) w.events) → HasShown (events_of_flush k epoch entries outcomes) w (each (ends f k) entries w) }
{}

/// The events of a flush of frees that name no room are those that the text shows for its log, and after it the same blocks live, in the same epoch.
pub fn flushes_show_the_same()
    ensures events { (f : Profile) (k : ℕ) (logged : List Entry) (noted noted' : List EndedRun) (steps : List Made) (l : Whole) (w : World) → IsFlushOf f k logged noted noted' steps l w → (flushes f k w).events ≡ visible (triples k steps ++ l) }
    ensures live { (f : Profile) (k : ℕ) (logged : List Entry) (noted noted' : List EndedRun) (steps : List Made) (l : Whole) (w : World) → IsFlushOf f k logged noted noted' steps l w → (flushes f k w).live ≡ lives_in (flushes f k w).events }
    ensures epoch { (f : Profile) (k : ℕ) (logged : List Entry) (noted noted' : List EndedRun) (steps : List Made) (l : Whole) (w : World) → IsFlushOf f k logged noted noted' steps l w → (flushes f k w).epoch ≡ w.epoch }
{}

/// Where each live block lies on grains that blocks of its page's directory may cover: a flush lets each logged free take effect, and leaves the caches, the hints and
/// the offers of the text. So does a free into a full log, which is flushed first, and a free into any log is logged at its end, or answered at once.
pub fn flushes_stay_the_same()
    ensures flush { (f : Profile) (line k : ℕ) → IsThread f k → StaysSameWhere HasUsableBlocks f (Act.Operates (record { line = line; actor = k; what = Flush })) }
    ensures raw { (f : Profile) (line k : ℕ) (block : Name) → IsThread f k → StaysSameWhere HasUsableBlocks f (Act.Operates (record { line = line; actor = k; what = Raw block })) }
    ensures raw_sized { (f : Profile) (line k room : ℕ) (block : Name) → IsThread f k → StaysSameWhere HasUsableBlocks f (Act.Operates (record { line = line; actor = k; what = RawSized room block })) }
    ensures named { (f : Profile) (line k name : ℕ) → IsThread f k → StaysSameWhere HasUsableBlocks f (Act.Operates (record { line = line; actor = k; what = Free name })) }
    ensures named_sized { (f : Profile) (line k name room : ℕ) → IsThread f k → StaysSameWhere HasUsableBlocks f (Act.Operates (record { line = line; actor = k; what = FreeSized name room })) }
{}

/// A stop is a flush after which all local allocators of the thread's cache go, in whatever order: by an operation of the thread, by the scavenger where the thread was idle
/// for so many epochs, which is said, and at the close.
pub fn stops_stay_the_same()
    ensures stop { (f : Profile) (line k : ℕ) → IsThread f k → StaysSameWhere HasUsableBlocks f (Act.Operates (record { line = line; actor = k; what = Stop })) }
    ensures idle { (f : Profile) (k n : ℕ) → IsThread f k → StaysSameWhere HasUsableBlocks f (Act.StopsIdle k n) }
    ensures ends { (f : Profile) (k : ℕ) → IsThread f k → StaysSameWhere HasUsableBlocks f (Act.Ends k) }
{}

/// Whatever act a replay goes on by, a keeper's too, each live block lies on grains that blocks of its page's directory may cover after it, where that was so before.
pub fn blocks_stay_usable()
    ensures { (f : Profile) (act : Act) → KeepsUsable f act }
{}

/// Each page where a block ended is stamped between two acts, whatever they are, a keeper's too: so its stamp is the greatest epoch of an end there, at any moment between acts.
pub fn stamps_are_kept()
    ensures start { AreEndsStamped [] }
    ensures keeps { (f : Profile) (act : Act) → KeepsStamped f act }
    ensures told { (f : Profile) (p : Progress) → IsValid f → IsBetween f p → AreEndsStamped p.list → AreStamped f p.list }
{}

/// The indexes of the text hold nothing at first, and whatever act but a guarded request a replay goes on by, they hold after it what those of the replay do,
/// where that was so before.
pub fn indexes_stay_the_same()
    ensures start { (threads heaps : ℕ) → (opened threads heaps).indexes ≡ no_ranges heaps }
    ensures act { (f : Profile) (act : Act) → KeepsIndexes f act }
{}

/// EACH ACT keeps the text and its indexes, whatever it is, by what is known of it in a replay. So do acts one after the other, with all actors at
/// rest between them, which carry what each of them needs: that only keepers have guards up, that live blocks lie on grains that they may cover, that pages are stamped, and that the
/// indexes are those of the text. Before the first act it is so. No act changes how many caches the text has.
pub fn acts_stay_the_same()
    ensures many { (f : Profile) (act : Act) (w : World) → length (acts_on f act w).caches ≡ length w.caches }
    ensures start { (threads n : ℕ) (f : Profile) → threads ≤ n → n ≤ f.threads → IsCarried threads f at_start (opened n f.heaps) (no_ranges f.heaps) }
    ensures act { (threads : ℕ) (f : Profile) (act : Act) → KeepsSame threads f act }
    ensures acts { (threads : ℕ) (f : Profile) (acts : List Act) (p p' : Progress) (is : Reaches f acts p p') (w : World) (indexes : Indexes) → ArePlanned threads f acts
        → AreKnown threads f acts p p' is indexes → IsCarried threads f p w indexes → IsCarried threads f p' (each (acts_on f) acts w) (indexes_after_all f acts p p' is indexes) }
{}

/// The text of a state that is the replay's is what is written of that replay: the lines of its records, and then the report of the machine that its events reach, with
/// the marks after its list.
pub fn texts_are_told()
    ensures { (f : Profile) (p : Progress) (w : World) → IsValid f → Legal f p.list → AreTrueMarks f p.list → IsSame f p w → text_of f w ≡ lines_of p.records ++ report_text f (visible p.list) (marks_after p.list) }
{}

/// WHAT IS WRITTEN OF A REPLAY in the order of the text is told by the replay as a function, for each plan of a text, with keepers or without: its
/// lines, its report, its records and its events. The function may have a cache for each actor of the region, or as the text one for each thread
/// alone: nobody uses those of keepers. So the text that `order_text` has for the bytes is what is written of any replay of their plan. Where there
/// are no keepers that is the replay of the phases.
pub fn replays_are_told()
    ensures acts { (text : List ℕ) (plan : Plan) (whole : Whole) (records : List Record) → IsPlanOf text plan → IsReplay InOrder plan whole records
        → IsTold plan whole records (each (acts_on (region_of plan)) (acts_of_plan plan) (opened (region_of plan).threads (region_of plan).heaps)) }
    ensures own { (text : List ℕ) (plan : Plan) (whole : Whole) (records : List Record) → IsPlanOf text plan → IsReplay InOrder plan whole records
        → IsTold plan whole records (replayed plan.profile (keepers_of plan) (phases_of plan)) }
    ensures bytes { (bytes : List ℕ) (plan : Plan) (whole : Whole) (records : List Record) → IsPlanOf bytes plan → IsReplay InOrder plan whole records
        → order_text bytes ≡ Some (lines_of records ++ report_text (region_of plan) (visible whole) (marks_after whole)) }
    ensures unguarded { (text : List ℕ) (plan : Plan) (whole : Whole) (records : List Record) → IsPlanOf text plan → IsReplay InOrder plan whole records → keepers_of plan ≡ 0
        → IsTold plan whole records (replayed (region_of plan) (keepers_of plan) (phases_of plan)) }
{}

/// Whatever a request is, one of an operation or one for the block that replaces another: by what is known of it, it keeps the text.
pub fn requests_stay_the_same()
    ensures { (f : Profile) (k : ℕ) (r : Request) → RequestStaysSame f k r }
{}

/// In the replay of a plan each act is of one of its threads, of one of its keepers, or of the scavenger, and asks for what the region admits.
pub fn acts_are_planned()
    ensures { (text : List ℕ) (plan : Plan) → IsPlanOf text plan → ArePlanned (threads_of plan) (region_of plan) (acts_of_plan plan) }
{}

/// The text of bytes that are a trace is that of the replay of any plan of them: of its phases, with as many keepers, in its region, where its threads alone are actors. Where
/// it has no keepers, that is the region of its replays.
pub fn bytes_are_told()
    ensures text { (bytes : List ℕ) (plan : Plan) → IsPlanOf bytes plan → order_text bytes ≡ Some (text_of plan.profile (replayed plan.profile (keepers_of plan) (phases_of plan))) }
    ensures unguarded { (bytes : List ℕ) (plan : Plan) → IsPlanOf bytes plan → keepers_of plan ≡ 0 → order_text bytes ≡ Some (text_of (region_of plan) (replayed (region_of plan) (keepers_of plan) (phases_of plan))) }
{}

/// A search that found a page found the one that the text finds: the lowest offered page on which something fits, or where there is none, the lowest that nobody has.
pub fn searches_choose_the_same<W: Fitting>(wanted: &W)
    ensures offered { (f : Profile) (d : Directory) (k : ℕ) (p : Progress) (w : World) (fits : ℕ → List ℕ) (steps : List Made) (page : ℕ) → IsSearch (W.no_fit wanted.now) f d k p steps w fits → IsPage f page → FromOffered (W.no_fit wanted.now) d page steps
        → (W.no_fit wanted.now (free_of_page p.list page) → ⊥) → searched f w d fits ≡ Ok page }
    ensures deed { (f : Profile) (d : Directory) (k : ℕ) (p : Progress) (w : World) (fits : ℕ → List ℕ) (steps : List Made) (page : ℕ) → IsSearch (W.no_fit wanted.now) f d k p steps w fits → IsPage f page → ByDeed (W.no_fit wanted.now) f d page steps → searched f w d fits ≡ Ok page }
{}

/// A refusal says in the text what is true of the whole state: the lowest page of the directory that is in a cache's hands, or that there is none.
pub fn refusals_are_told()
    ensures { (f : Profile) (p : Progress) (w : World) (d : Directory) (room : NoRoom) → IsAtRest f p w → IsDirectoryOf f d → IsTrueReason f d p.list room → refusal f w d ≡ room }
{}

/// A bit-fit request gives the lowest place of the page that is searched for, which gets a deed and memory where it has none; or it is refused, and changes no page.
pub fn bitfit_requests_stay_the_same()
    ensures { (f : Profile) (line k name heap size align : ℕ) → IsThread f k → IsAdmitted f size align heap → route_in f size align ≡ Route.Bitfit → StaysSame f (Act.Operates (record { line = line; actor = k; what = Alloc name heap size align })) }
{}

/// A request of a class gives the lowest slot that the thread's cache has for it. Where it has none, place for a local allocator is made first: the spent one goes, or where there is none and
/// the cache is full, the one used longest ago. Then slots are taken of the page that is searched for, and the lowest is given; or the request is refused, for the reason that the text says.
pub fn class_requests_stay_the_same()
    ensures { (f : Profile) (line k name heap size align class : ℕ) → IsThread f k → IsAdmitted f size align heap → route_in f size align ≡ Route.Class class → StaysSame f (Act.Operates (record { line = line; actor = k; what = Alloc name heap size align })) }
{}

/// Whenever all actors are at rest and the pages are the same: a page may be one of a run in the text exactly where it is usable in the replay, and the run that the text gives is the
/// lowest usable one. The run that is named for a request serves in the text exactly where each of its pages is whole.
pub fn runs_are_told()
    ensures whole { (f : Profile) (p : Progress) (w : World) (heap page : ℕ) → IsAtRest f p w → ArePagesSame f p.list w → IsDirectoryOf f (large_of heap) → (is_whole w heap page ≡ true) ↔ IsWholePage (large_of heap) p.list page }
    ensures usable { (f : Profile) (p : Progress) (w : World) (heap page : ℕ) → IsAtRest f p w → ArePagesSame f p.list w → IsDirectoryOf f (large_of heap) → (is_usable w heap page ≡ true) ↔ IsUsablePage (large_of heap) p.list page }
    ensures lowest { (f : Profile) (p : Progress) (w : World) (heap n first : ℕ) → IsAtRest f p w → ArePagesSame f p.list w → IsDirectoryOf f (large_of heap) → 1 ≤ n → IsLowestRun f (large_of heap) n p.list first → lowest_run f w heap n ≡ Some first }
    ensures none { (f : Profile) (p : Progress) (w : World) (heap n : ℕ) → IsAtRest f p w → ArePagesSame f p.list w → IsDirectoryOf f (large_of heap) → HasNoUsableRun f (large_of heap) n p.list → lowest_run f w heap n ≡ None }
    ensures named { (f : Profile) (p : Progress) (w : World) (heap n first : ℕ) → IsAtRest f p w → ArePagesSame f p.list w → IsDirectoryOf f (large_of heap) → 1 ≤ n → (named_run w heap n ≡ Some first) ↔ IsNamedWhole f (large_of heap) n p.list (named_first w heap n) first }
{}

/// Where no other actor makes a step meanwhile, the run of n pages that a search found is the lowest one that was usable before it.
pub fn lone_searches_find_the_lowest_run()
    ensures { (f : Profile) (k : ℕ) (l : Whole) (d : Directory) (n first : ℕ) (steps : List Made) → IsDirectoryOf f d → MayFind d (part k l) → Legal f (triples k steps ++ l) → Only finding steps → Always ReturnsDuly steps
        → FoundRun f d n steps first → IsLowestRun f d n l first }
{}

/// A request for whole pages gives the run that the heap's index names, where it is whole, or else the lowest usable one: its pages get deeds and memory where they have none. Or it is
/// refused, and changes no page.
pub fn pages_requests_stay_the_same()
    ensures { (f : Profile) (line k name heap size align : ℕ) (indexes : Indexes) → IsThread f k → IsAdmitted f size align heap → route_in f size align ≡ Route.Large
        → (p p' : Progress) (w : World) → w.indexes ≡ indexes → (taken : IsTaken f (Act.Operates (record { line = line; actor = k; what = Alloc name heap size align })) p p' w)
        → ActIsNamedBy f indexes (Act.Operates (record { line = line; actor = k; what = Alloc name heap size align })) p p' taken.advances → IsSame f p' (acts_on f (Act.Operates (record { line = line; actor = k; what = Alloc name heap size align })) w) }
{}

/// Where each page on which a block ended is stamped: a pass examines just the pages that are hinted when it begins, upwards, and each comes to the outcome that the text says of it: it
/// is bare, in use by its lowest word with a grain that isn't free, kept by a cache, or young by its stamp, or its memory goes back. The hints that are left are those of the text, and each page is
/// offered as before.
pub fn passes_stay_the_same()
    ensures { (f : Profile) → StaysSameWhere (λ p. AreEndsStamped p.list) f Act.MakesPass }
{}

/// At the close a keeper lowers all its guards: their outer pages are anybody's again, which is said, and no page is hinted for it, since none of them has memory.
pub fn guards_go_down()
    ensures { (f : Profile) (keeper : ℕ) → IsThread f keeper → StaysSame f (Act.Lowers keeper) }
{}
