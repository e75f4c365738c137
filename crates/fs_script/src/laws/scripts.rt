//! Scripts and the jobs that they spell.

ghost use Rattle.std.specs.Prelude.{◌≡◌, ◌≢◌, ◌<◌, ◌^◌, ℕ, List, Some, Ok, Err};
ghost use Rattle.std.specs.Fmt.{decimal};
ghost use Rattle.fs_script.specs.declared.fault.ScriptFault.TheVariants.{Want};
ghost use Rattle.fs_script.specs.Job.{Job};
ghost use Rattle.fs_script.specs.Grammar.{IsJob, IsScript};
ghost use Rattle.fs_script.specs.Reading.Scripts.{job_of};
ghost use Rattle.fs_script.specs.Reading.Numbers.{number_of};

/// The bytes of a script are those of one job. The texts of its notes are not kept, so a job may
/// have more than one script.
pub fn one_job()
    ensures { (bytes : List ℕ) (s t : Job) → IsScript bytes s → IsScript bytes t → s ≡ t }
{}

/// A script is that of a job within the limits.
pub fn scripts_are_of_jobs()
    ensures { (bytes : List ℕ) (s : Job) → IsScript bytes s → IsJob s }
{}

/// Reading finds a job exactly where the bytes are its script.
pub fn reading_finds_scripts()
    ensures found { (bytes : List ℕ) (s : Job) → job_of bytes ≡ Ok s → IsScript bytes s }
    ensures all { (bytes : List ℕ) (s : Job) → IsScript bytes s → job_of bytes ≡ Ok s }
{}

/// No bytes are read as want of memory: each text is read as a job or as one of the other faults.
pub fn reading_wants_no_memory()
    ensures { (bytes : List ℕ) → job_of bytes ≢ Err Want }
{}

/// A word is read as a number exactly where it is the decimal text of one below 2 ^ 64.
pub fn numbers_are_decimal()
    ensures spelled { (w : List ℕ) (n : ℕ) → number_of w ≡ Some n → (n < 2 ^ 64) × (w ≡ decimal n) }
    ensures read { (n : ℕ) → n < 2 ^ 64 → number_of (decimal n) ≡ Some n }
{}
