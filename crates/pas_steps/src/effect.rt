//! What a step does, as programs that a desk calls.
ghost use Rattle.std.specs.Prelude.{◌≡◌, ◌<◌, ◌-◌, ◌/◌, ◌^◌};
ghost use Rattle.pas_steps.specs.Effects.{target as target_word, new_value as the_value, life_word_at as the_life_word_at, ended_word};
ghost use Rattle.pas_steps.specs.{Views.epoch_after as the_epoch, Ranges.IsRanged, Events.{event_of as the_event, end_event as the_end_event}};
ghost use Rattle.pas_steps.specs.Events.{sized_event as the_sized_event, reason_of};
ghost use Rattle.pas_profile.specs.Blocks.{grain_of};

use crate::step::Step;
use pas_bits::page_vector::page_mask;
use pas_profile::limits::PAGE_GRAINS;
use pas_profile::{Event, Name, Why, Word, deed_word, life_word, read_life};

/// The one word of a step.
#[inline(always)]
pub fn target(step: Step) -> Word
    requires { IsRanged step }
    ensures { result ≡ target_word step }
{
    match step {
        Step::Look { word } => word,
        Step::Deed { page, directory: _ } => Word::Deed(page),
        Step::Back { page } => Word::Backed(page),
        Step::Take {
            page,
            word,
            mask: _,
        } => Word::Free(page, word),
        Step::Put {
            page,
            word,
            mask: _,
        } => Word::Free(page, word),
        Step::Give { block } => life_word_at(block.name),
        Step::End { name, guess: _ } => life_word_at(name),
        Step::EndSized { name, room: _ } => life_word_at(name),
        Step::TakeRight { page, directory } => Word::Eligible(directory.number(), page / 64),
        Step::Offer { page, directory } => Word::Eligible(directory.number(), page / 64),
        Step::Park { page } => Word::Parked(page / 64),
        Step::Unpark { page } => Word::Parked(page / 64),
        Step::Stamp { page } => Word::Stamp(page),
        Step::Hint { page } => Word::Empty(page / 64),
        Step::Tick { epoch: _ } => Word::Epoch,
        Step::Unback { page } => Word::Backed(page),
        Step::Unhint { page } => Word::Empty(page / 64),
    }
}

/// The life word at the address of the name.
#[inline]
fn life_word_at(name: Name) -> Word
    ensures { result ≡ the_life_word_at (grain_of name) }
{
    let grain = name.address.grain();
    Word::Life(grain / PAGE_GRAINS, (grain % PAGE_GRAINS) as u8)
}

/// The life word after an end of the name with so many grains.
#[inline(always)]
fn ended(name: Name, grains: u32, old: u64) -> u64
    requires turn { name.turn < 2 ^ 40 - 1 }
    requires grains { grains < 2 ^ 23 }
    ensures { result ≡ ended_word name grains old }
{
    if old == life_word(name.turn, grains, true) {
        name.turn + 1
    } else {
        old
    }
}

/// The word's new value, from the epoch that the actor knows and the old value.
#[inline(always)]
pub fn new_value(epoch: u64, step: Step, old: u64) -> u64
    requires { IsRanged step }
    ensures { result ≡ the_value epoch step old }
{
    match step {
        Step::Look { word: _ } => old,
        Step::Deed { page: _, directory } => { if old == 0 { deed_word(directory) } else { old } }
        Step::Back { page: _ } => old | 1,
        Step::Take {
            page: _,
            word: _,
            mask,
        } => old & !mask,
        Step::Put {
            page: _,
            word: _,
            mask,
        } => old | mask,
        Step::Give { block } => life_word(block.name.turn, block.grains(), true),
        Step::End { name, guess } => ended(name, guess, old),
        Step::EndSized { name, room } => ended(name, room / 16, old),
        Step::TakeRight { page, directory: _ } => old & !page_mask(page),
        Step::Offer { page, directory: _ } => old | page_mask(page),
        Step::Park { page } => old | page_mask(page),
        Step::Unpark { page } => old & !page_mask(page),
        Step::Stamp { page: _ } => old.max(epoch),
        Step::Hint { page } => old | page_mask(page),
        Step::Tick { epoch: raised } => old.max(raised),
        Step::Unback { page: _ } => 0,
        Step::Unhint { page } => old & !page_mask(page),
    }
}

/// The newest epoch that the actor knows after a step with this answer.
#[inline(always)]
pub fn epoch_after(step: Step, answer: u64, known: Option<u64>) -> Option<u64>
    ensures { result ≡ the_epoch step answer known }
{
    match step {
        Step::Look { word: Word::Epoch } => Some(answer),
        Step::Tick { epoch } => Some(answer.max(epoch)),
        Step::Look { .. } | Step::Deed { .. } | Step::Back { .. } | Step::Take { .. } => known,
        Step::Put { .. } | Step::Give { .. } | Step::End { .. } | Step::EndSized { .. } => known,
        Step::TakeRight { .. } | Step::Offer { .. } | Step::Park { .. } | Step::Unpark { .. } =>
            known,
        Step::Stamp { .. } | Step::Hint { .. } | Step::Unback { .. } | Step::Unhint { .. } => known,
    }
}

/// Why an end of the name with this answer is refused, where no block of the name lives.
fn reason(name: Name, answer: u64) -> Why
    ensures { result ≡ reason_of name answer }
{
    let (turn, _, _) = read_life(answer);
    if name.turn < turn {
        Why::Ended
    } else {
        Why::NoBlock
    }
}

/// The event of an end with this answer.
fn end_event(actor: u8, epoch: u64, name: Name, guess: u32, answer: u64) -> Option<Event>
    requires turn { name.turn < 2 ^ 40 - 1 }
    requires guess { guess < 2 ^ 23 }
    ensures { result ≡ the_end_event actor epoch name guess answer }
{
    if answer == life_word(name.turn, guess, true) {
        return Some(Event::End { actor, name, epoch });
    }
    let (turn, _, live) = read_life(answer);
    if live && turn == name.turn {
        None
    } else {
        Some(Event::Reject {
            actor,
            name,
            why: reason(name, answer),
        })
    }
}

/// The event of an end with this room and this answer.
fn sized_event(actor: u8, epoch: u64, name: Name, room: u32, answer: u64) -> Option<Event>
    requires turn { name.turn < 2 ^ 40 - 1 }
    requires room { room / 16 < 2 ^ 23 }
    ensures { result ≡ the_sized_event actor epoch name room answer }
{
    if answer == life_word(name.turn, room / 16, true) {
        return Some(Event::End { actor, name, epoch });
    }
    let (turn, _, live) = read_life(answer);
    let why = if live && turn == name.turn {
        Why::SizeDiffers(room)
    } else {
        reason(name, answer)
    };
    Some(Event::Reject { actor, name, why })
}

/// The event of a step with this answer, of an actor that knows this epoch.
#[inline(always)]
pub fn event_of(actor: u8, epoch: u64, step: Step, answer: u64) -> Option<Event>
    requires { IsRanged step }
    ensures { result ≡ the_event actor epoch step answer }
{
    match step {
        Step::Deed { page, directory } if answer == 0 => Some(Event::Deed {
            actor,
            page,
            directory,
        }),
        Step::Back { page } if answer == 0 => Some(Event::Back { actor, page }),
        Step::Give { block } => Some(Event::Give { actor, block }),
        Step::End { name, guess } => end_event(actor, epoch, name, guess, answer),
        Step::EndSized { name, room } => sized_event(actor, epoch, name, room, answer),
        Step::Unback { page } => Some(Event::Unback { actor, page, epoch }),
        Step::Deed { .. } | Step::Back { .. } | Step::Look { .. } | Step::Take { .. } => None,
        Step::Put { .. } | Step::TakeRight { .. } | Step::Offer { .. } | Step::Park { .. } => None,
        Step::Unpark { .. } | Step::Stamp { .. } | Step::Hint { .. } | Step::Tick { .. } => None,
        Step::Unhint { .. } => None,
    }
}
