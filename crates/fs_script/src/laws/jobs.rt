//! A job is legal so far at each step, and its report is legal at the end.

ghost use Rattle.fs_script.specs.Laws.{NothingIsLegal, FinishedJobsAreLegal};
ghost use Rattle.fs_script.specs.Laws.{AnswersKeepJobsLegal, CommitsKeepJobsLegal};

/// Before any answer, with empty journals.
pub fn nothing_is_legal()
    ensures { NothingIsLegal }
{}

/// As an answer comes that commits nothing and fits.
#[tactic(auto, using(crate::proofs::SoFar::next_answers))]
pub fn answers_keep_jobs_legal()
    ensures { AnswersKeepJobsLegal }
{}

/// As an answer comes that commits its line, which is enabled, and that fits in the journal with
/// the line at its end.
#[tactic(auto, using(crate::proofs::SoFar::next_answers))]
pub fn commits_keep_jobs_legal()
    ensures { CommitsKeepJobsLegal }
{}

/// With an answer to each operation, each file as its journal leaves it, and the slots counted.
#[tactic(auto, using(crate::proofs::Finished::finished))]
pub fn finished_jobs_are_legal()
    ensures { FinishedJobsAreLegal }
{}
