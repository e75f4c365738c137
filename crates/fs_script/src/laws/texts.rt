//! The text of a legal report says what the report is.

ghost use Rattle.fs_script.specs.Laws.{LegalReportsArePrintable, OneLegalReport};
ghost use Rattle.fs_script.specs.Laws.{OnePrintableReport, PrintableTextIsWhole};
ghost use Rattle.fs_script.specs.Laws.{TextEnds, TextIsWhole};

/// Two reports with one text are one report, and no text goes on after another, of whatever jobs
/// the reports are: that each is printable is all that this needs.
#[tactic(auto, using(crate::proofs::TextRead::same_report, crate::proofs::TextRead::nothing_more))]
pub fn one_printable_report()
    ensures one { OnePrintableReport }
    ensures alone { PrintableTextIsWhole }
{}

/// Each number of a legal report fits the type that holds it, each byte is one, and each path is a
/// path.
pub fn legal_reports_are_printable()
    ensures { LegalReportsArePrintable }
{}

/// Two legal reports of one job with one text are one report.
pub fn one_legal_report()
    ensures { OneLegalReport }
{}

/// A text ends with a line `end`, and goes on after that of no other legal report of the job. So a
/// text that was cut off is no text of a legal report.
#[tactic(auto, using(crate::proofs::TextRead::text_ends))]
pub fn text_is_whole()
    ensures ends { TextEnds }
    ensures alone { TextIsWhole }
{}
