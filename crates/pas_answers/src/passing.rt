//! A pass over the pages that are hinted as empty.
ghost use Rattle.std.specs.Prelude.{◌≡◌, ◌+◌, ◌≤◌, ◌++◌, length, map};
ghost use Rattle.pas_records.specs.Rooms.{records_in, room_of};
ghost use Rattle.pas_steps.specs.{Clear.HasNothing, Desks.CanCall};
ghost use Rattle.pas_utility.specs.Outcomes.{pairs_in, places_of};
ghost use Rattle.pas_answers.specs.{TicksAndPasses.AnswersPass, PassRecords.record_of};

use pas_profile::{Event, Outcome};
use pas_records::{Record, Records, Said};
use pas_steps::Desk;
use pas_utility::Outcomes;

/// The record of the page's outcome.
fn record(actor: u8, epoch: u64, page: u32, outcome: Outcome) -> Record
    ensures { result ≡ record_of actor epoch page outcome }
{
    match outcome {
        Outcome::Unbacked => Record::Event(Event::Unback { actor, page, epoch }),
        Outcome::Bare => Record::Said(actor, Said::Bare(page)),
        Outcome::Young(stamp) => Record::Said(actor, Said::Young { page, stamp }),
        Outcome::InUse(word, value) => Record::Said(actor, Said::InUse { page, word, value }),
        Outcome::NotOffered => Record::Said(actor, Said::NotOffered(page)),
    }
}

/// Adds the records of the pages' outcomes, in their order.
fn push_outcomes(found: &[(u32, Outcome)], actor: u8, epoch: u64, out: &mut Records)
    requires room { length (records_in out.old) + length found.now ≤ room_of out.old }
    ensures added { records_in out.new ≡ records_in out.old ++ map (λ p. record_of actor epoch p.0 p.1) found.now }
    ensures room { room_of out.new ≡ room_of out.old }
{
    for (page, outcome) in found {
        out.push(record(actor, epoch, *page, *outcome));
    }
}

/// Makes a pass of the scavenger, and says what it came to: the mark of the pass with the epoch that it read, and then each page that had an
/// outcome, in the order in which they were examined. The outcomes stay in `outcomes`.
///
/// Costs the steps of the pass, and one record for it and for each outcome.
pub fn pass<D: Desk>(desk: &mut D, outcomes: &mut Outcomes, out: &mut Records)
    requires can { CanCall (D.standing desk.old) HasNothing }
    requires room { (D.standing desk.old).seat.profile.pages ≤ D.spare_of desk.old }
    requires places { places_of outcomes.old ≡ (D.standing desk.old).seat.profile.pages }
    requires records { length (records_in out.old) + (1 + (D.standing desk.old).seat.profile.pages) ≤ room_of out.old }
    ensures passes { AnswersPass (D.standing desk.old) (D.standing desk.new) (D.spare_of desk.old) (D.spare_of desk.new) (pairs_in outcomes.new) (records_in out.old) (records_in out.new) }
    ensures few { length (records_in out.new) ≤ length (records_in out.old) + (1 + (D.standing desk.old).seat.profile.pages) }
    ensures places { places_of outcomes.new ≡ places_of outcomes.old }
    ensures room { room_of out.new ≡ room_of out.old }
    ensures home { D.home desk.new ≡ D.home desk.old }
{
    let epoch = pas_scavenger::pass(desk, outcomes);
    let actor = desk.actor();
    out.push(Record::Said(actor, Said::Pass(epoch)));
    push_outcomes(outcomes.as_slice(), actor, epoch, out);
}
