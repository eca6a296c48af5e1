//! What a check accepts of what a replay shows. Each law is the contract of an empty function.
ghost use Rattle.std.specs.Prelude.{List, ◌++◌};
ghost use Rattle.pas_profile.specs.Profiles.{IsValid};
ghost use Rattle.pas_steps.specs.Lists.{Whole, visible};
ghost use Rattle.pas_trace.specs.declared.plan.Plan.{Plan};
ghost use Rattle.pas_records.specs.{Lines.lines_of, Marks.marks_after, declared.record.Record.Record};
ghost use Rattle.pas_report.specs.Reports.{report_text};
ghost use Rattle.pas_answers.specs.{Replays.{IsReplay, region_of}, Ways.InOrder};
ghost use Rattle.pas_check.specs.Accepted.{IsAccepted};

/// The transcript of a replay in the order of the text is accepted: the lines of its records, and then the report of the machine that the visible events of
/// its list reach, with the marks that the words after the list say.
pub fn replays_are_accepted()
    ensures { (plan : Plan) (whole : Whole) (records : List Record) → IsValid (region_of plan) → IsReplay InOrder plan whole records
        → IsAccepted plan (lines_of records ++ report_text plan.profile (visible whole) (marks_after whole)) }
{}
