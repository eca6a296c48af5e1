//! Lines of a pass: what came of its pages.
ghost use Rattle.std.specs.Prelude.{ℕ, ◌≡◌, ◌≢◌, ◌≤◌, length, MatchBool};
ghost use Rattle.pas_profile.specs.Profiles.{IsPage, IsValid};
ghost use Rattle.pas_profile.specs.declared.event.Outcome.TheVariants as TheOutcome;
ghost use Rattle.pas_machine.specs.Machines.{profile_of, StandsFor};
ghost use Rattle.pas_check.specs.{Calls.{outcome_in, outcome_in_event, outcome_in_said, IsExamined, OutcomeTaken, OutcomesTaken}, Leading.IsWithin};
ghost use Rattle.pas_check.specs.{States.Stand, Takes.MayCome};

use crate::cutting::{Cursor, next_line};
use crate::reading::read;
use crate::taking::step;
use pas_machine::Machine;
use pas_profile::{Event, Outcome};
use pas_records::{Record, Said};

/// What came of a page.
#[derive(Clone, Copy, Drop)]
pub(crate) struct Examined {
    pub page: u32,
    pub outcome: Outcome,
}

/// The outcome that the event tells of, in a pass of this epoch; None where it tells of none.
fn outcome_of_event(event: &Event, epoch: u64) -> Option<Examined>
    ensures { result ≡ outcome_in_event epoch event.now }
{
    match *event {
        Event::Unback {
            actor: 0,
            page,
            epoch: read,
        } if read == epoch => Some(Examined {
            page,
            outcome: Outcome::Unbacked,
        }),
        _ => None,
    }
}

/// The outcome that this says; None where it says something else.
fn outcome_of_said(said: &Said) -> Option<Examined>
    ensures { result ≡ outcome_in_said said.now }
{
    let (page, outcome) = match *said {
        Said::Bare(page) => (page, Outcome::Bare),
        Said::Young { page, stamp } => (page, Outcome::Young(stamp)),
        Said::InUse { page, word, value } => (page, Outcome::InUse(word, value)),
        Said::NotOffered(page) => (page, Outcome::NotOffered),
        _ => return None,
    };
    Some(Examined { page, outcome })
}

/// The outcome whose record this is, in a pass of this epoch; None where it is of none.
fn outcome_of(item: &Record, epoch: u64) -> Option<Examined>
    ensures { result ≡ outcome_in epoch item.now }
{
    match item {
        Record::Event(event) => outcome_of_event(event, epoch),
        Record::Said(0, said) => outcome_of_said(said),
        _ => None,
    }
}

/// Whether the outcome may come of the page, where it isn't that the page gave its memory back.
fn may_come(machine: &Machine, examined: &Examined, epoch: u64) -> bool
    requires { IsPage (profile_of machine.now) examined.now.page }
    ensures { (s : Stand) → StandsFor machine.now s.events → s.epoch ≡ epoch → examined.now.outcome ≢ TheOutcome.Unbacked
        → MatchBool result (MayCome (profile_of machine.now) s examined.now.page examined.now.outcome) (MayCome (profile_of machine.now) s examined.now.page examined.now.outcome → ⊥) }
{
    match examined.outcome {
        Outcome::Unbacked => false,
        Outcome::Bare => !machine.is_backed(examined.page),
        Outcome::Young(stamp) => {
            let age = machine.profile().age;
            stamp == machine.last_end(examined.page) && (epoch < stamp || epoch - stamp < age)
        }
        Outcome::InUse(word, value) => word < 4 && value < u64::MAX,
        Outcome::NotOffered => machine.deed_of(examined.page).is_some(),
    }
}

/// Takes what came of the page, where it may come, and says whether it may.
fn examine(machine: &mut Machine, examined: &Examined, epoch: u64) -> bool
    requires { IsPage (profile_of machine.old) examined.now.page }
    ensures profile { profile_of machine.new ≡ profile_of machine.old }
    ensures came { IsExamined machine.old machine.new epoch examined.now result }
{
    match examined.outcome {
        Outcome::Unbacked => step(
            machine,
            &Event::Unback {
                actor: 0,
                page: examined.page,
                epoch,
            },
        ),
        _ => may_come(machine, examined, epoch),
    }
}

/// Takes the line of which this was read where it is of an outcome of a pass of this epoch on a page after the last one, and says which page that is; None
/// where it is none of these.
pub(crate) fn take_outcome(
    machine: &mut Machine,
    found: &Option<Record>,
    last: u32,
    epoch: u64,
) -> Option<u32>
    ensures profile { profile_of machine.new ≡ profile_of machine.old }
    ensures taken { OutcomeTaken (profile_of machine.old) machine.old machine.new last epoch found.now result }
{
    let Some(item) = found else {
        return None;
    };
    let Some(examined) = outcome_of(item, epoch) else {
        return None;
    };
    if examined.page <= last || !machine.has_page(examined.page) {
        return None;
    }
    if !examine(machine, &examined, epoch) {
        return None;
    }
    Some(examined.page)
}

/// Takes the lines of the outcomes of a pass of this epoch, as many as there are. The cursor stays before the first line that is none.
pub(crate) fn take_outcomes(machine: &mut Machine, text: &[u8], cursor: &mut Cursor, epoch: u64)
    requires within { IsWithin text.now cursor.old }
    requires valid { IsValid (profile_of machine.old) }
    ensures profile { profile_of machine.new ≡ profile_of machine.old }
    ensures taken { OutcomesTaken machine.old machine.new text.now cursor.old cursor.new epoch }
    ensures within { IsWithin text.now cursor.new }
{
    let mut last = 0;
    'lines: loop {
        let mut ahead = *cursor;
        let Some(line) = next_line(text, &mut ahead) else {
            return;
        };
        match take_outcome(machine, &read(line), last, epoch) {
            Some(page) => {
                last = page;
                *cursor = ahead;
            }
            None => return,
        }
    }
}
