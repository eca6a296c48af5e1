//! Any step, for the seat of one actor: one atomic exchange or load of its word. Steps that nearly always find their word as they would
//! leave it look first: where it is otherwise, the load adds nothing, and then comes the exchange that is the step.
ghost use Rattle.std.specs.Prelude.{◌≡◌, []};
ghost use Rattle.pas_profile.specs.Layouts.{index_of, words_of};
ghost use Rattle.pas_steps.specs.{Effects.target, Ranges.IsRanged, Views.epoch_of};
ghost use Rattle.pas_shared.specs.Ruled.{changed, IsAdded, IsAskedOf, Makes, SitsFor};

use crate::rule::{AddsIfKept, AddsStep, Chosen, TableSeat, TableWords};
use pas_bits::page_vector::page_mask;
use pas_profile::{deed_word, life_word};
use pas_steps::Step;

/// What a step that looks first makes of its word.
#[derive(Clone, Copy, Drop)]
pub(crate) enum Change {
    /// The greater of the word and this value.
    Raise(u64),
    /// The word with these bits.
    Set(u64),
    /// The word without these bits.
    Clear(u64),
}

impl Change {
    /// The word after the change.
    #[inline(always)]
    fn of(self, word: u64) -> u64
        ensures { result ≡ changed self word }
    {
        match self {
            Change::Raise(value) => word.max(value),
            Change::Set(mask) => word | mask,
            Change::Clear(mask) => word & !mask,
        }
    }
}

/// Makes the step on the word at its place, for this actor, which knows this epoch, and answers the word's value before.
#[inline(always)]
pub(crate) fn exchange<C: Chosen>(
    words: &TableWords,
    seat: &mut TableSeat,
    _actor: u8,
    at: usize,
    epoch: u64,
    step: Step,
) -> u64
    requires place { (seat.old.table_id ≡ words.now.table_id) × (words.now.key ≡ C.profile) × (words.now.table_id.words ≡ words_of C.profile.pages C.profile.heaps) }
    requires step { (seat.old.me ≡ (C.place, [])) × SitsFor C.place C.actor C.view × (C.step ≡ step) × IsAskedOf C.profile C.actor C.view step }
    requires at { (at ≡ index_of C.profile.pages (target step)) × (epoch ≡ epoch_of C.view) }
    requires ranged { IsRanged step }
    ensures seat { seat.new.table_id ≡ seat.old.table_id }
    ensures step { IsAdded C.profile C.place C.actor C.view step result seat.new.me }
{
    match step {
        Step::Look { word: _ } => words.load::<AddsStep<C>>(seat, at),
        Step::Deed { page: _, directory } => {
            words.compare_exchange::<AddsStep<C>>(seat, at, 0, deed_word(directory))
        }
        Step::Back { page: _ } => make_change::<C>(words, seat, at, Change::Set(1)),
        Step::Take {
            page: _,
            word: _,
            mask,
        } => words.fetch_and::<AddsStep<C>>(seat, at, !mask),
        Step::Put {
            page: _,
            word: _,
            mask,
        } => words.fetch_or::<AddsStep<C>>(seat, at, mask),
        Step::Give { block } => {
            let word = life_word(block.name.turn, block.room / 16, true);
            words.swap::<AddsStep<C>>(seat, at, word)
        }
        Step::End { name, guess } => {
            let word = life_word(name.turn, guess, true);
            words.compare_exchange::<AddsStep<C>>(seat, at, word, name.turn + 1)
        }
        Step::EndSized { name, room } => {
            let live = life_word(name.turn, room / 16, true);
            words.compare_exchange::<AddsStep<C>>(seat, at, live, name.turn + 1)
        }
        Step::TakeRight { page, directory: _ } => {
            words.fetch_and::<AddsStep<C>>(seat, at, !page_mask(page))
        }
        Step::Offer { page, directory: _ } => {
            words.fetch_or::<AddsStep<C>>(seat, at, page_mask(page))
        }
        Step::Park { page } => words.fetch_or::<AddsStep<C>>(seat, at, page_mask(page)),
        Step::Unpark { page } => make_change::<C>(words, seat, at, Change::Clear(page_mask(page))),
        Step::Stamp { page: _ } => make_change::<C>(words, seat, at, Change::Raise(epoch)),
        Step::Hint { page } => make_change::<C>(words, seat, at, Change::Set(page_mask(page))),
        Step::Tick { epoch: raised } => words.fetch_max::<AddsStep<C>>(seat, at, raised),
        Step::Unback { page: _ } => words.swap::<AddsStep<C>>(seat, at, 0),
        Step::Unhint { page } => words.fetch_and::<AddsStep<C>>(seat, at, !page_mask(page)),
    }
}

/// Makes a step that changes the word at its place in this way, and answers the word's value before: by one load where the word is
/// so already, and otherwise by a load and an exchange. For steps that mostly find it so: a word that is only read isn't taken from
/// the other threads.
#[inline(always)]
fn make_change<C: Chosen>(
    words: &TableWords,
    seat: &mut TableSeat,
    at: usize,
    change: Change,
) -> u64
    requires place { (seat.old.table_id ≡ words.now.table_id) × (words.now.key ≡ C.profile) × (words.now.table_id.words ≡ words_of C.profile.pages C.profile.heaps) }
    requires step { (seat.old.me ≡ (C.place, [])) × SitsFor C.place C.actor C.view × IsAskedOf C.profile C.actor C.view C.step }
    requires at { at ≡ index_of C.profile.pages (target C.step) }
    requires makes { Makes C.view C.step change }
    ensures seat { seat.new.table_id ≡ seat.old.table_id }
    ensures step { IsAdded C.profile C.place C.actor C.view C.step result seat.new.me }
{
    let found = words.load::<AddsIfKept<C>>(seat, at);
    if change.of(found) == found {
        return found;
    }
    match change {
        Change::Raise(value) => words.fetch_max::<AddsStep<C>>(seat, at, value),
        Change::Set(mask) => words.fetch_or::<AddsStep<C>>(seat, at, mask),
        Change::Clear(mask) => words.fetch_and::<AddsStep<C>>(seat, at, !mask),
    }
}
