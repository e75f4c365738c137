//! Laws about runs under picks. Each function does nothing: its contract is the laws.

ghost use Rattle.core_run.specs.RunUnderLaws.{OneFirstMoment, OneReportUnder};
ghost use Rattle.core_run.specs.RunUnderLaws.{MomentsAreReached, JobsCanRun};
ghost use Rattle.core_run.specs.RunUnderLaws.{ReportedWasAnswered, AnsweredIsReported};
ghost use Rattle.core_run.specs.RunUnderLaws.{NoSpaceIsReported};

use core_machine::{answers_were_given, no_space_is_exact};

/// Two reports of one job under the same picks are one report, since its first moment is one.
pub fn one_report_under()
    ensures first { OneFirstMoment }
    ensures report { OneReportUnder }
{}

/// A job within the limits can be run, and the machine reaches each moment of its run under picks,
/// by the turns that these choose.
pub fn runs_under_picks_are_reached()
    ensures moments { MomentsAreReached }
    ensures jobs { JobsCanRun }
{}

/// Each answer in the report of a run under picks came when the picks chose the line's client, the
/// line was its next one, and the event was answered so; and of a job that can be run the report has
/// each that came so.
pub fn reports_say_what_was_answered()
    ensures answered { ReportedWasAnswered }
    ensures reported { AnsweredIsReported }
{
    answers_were_given();
    runs_under_picks_are_reached();
}

/// Of a job that can be run the report under picks says that there was no space for a line exactly
/// where the line was a write that nothing else refused, and at its event fewer slots were left
/// than it needed.
pub fn no_space_is_reported()
    ensures { NoSpaceIsReported }
{
    no_space_is_exact();
    reports_say_what_was_answered();
    runs_under_picks_are_reached();
}
