//! The least version that a line may print.

ghost use Rattle.std.specs.Prelude.{◌≡◌, ℕ, option_copied};
ghost use Rattle.fs_types.specs.AnswerList.{answer_at};
ghost use Rattle.fs_script.specs.AnswerKinds.{version_of};
ghost use Rattle.fs_script.specs.Pending.{one_more};
ghost use Rattle.fs_script.specs.Front.{at_least, of_earlier_phases, seen};
ghost use Rattle.fs_plain.specs.FrontByJournals.{front_at};

use crate::answer_kinds::version_of;
use crate::journals::Journals;
use crate::lines::{op_of, own_op};
use fs_script::{Op, Script};
use fs_types::{Answer, Answers, LineNo, Path, Rank, Version};

// The greater of a version and that of an answer, if it prints one.
fn at_least(most: u64, a: &Answer) -> u64
    ensures { result ≡ at_least most (version_of a.now) }
{
    match version_of(a) {
        Some(v) => most.max(v.0),
        None => most,
    }
}

// The same with the answer to an own operation, if it is one and was answered.
fn seen_after(op: Option<&Op>, a: Option<&Answer>, most: u64) -> u64
    ensures { (n : ℕ) → result ≡ one_more (λ op a n most. at_least most (version_of a))
        (option_copied op.entry) (option_copied a.entry) n most }
{
    match (op, a) {
        (Some(_), Some(a)) => at_least(most, a),
        (Some(_), None) | (None, _) => most,
    }
}

// The greatest version in the answers before line `n` to client `r` on path `p`.
fn seen(s: &Script, a: &Answers, r: Rank, p: &Path, n: LineNo) -> u64
    ensures { result ≡ seen s.now (answer_at a.now.list) r p.now n }
{
    let mut most = 0;
    for m in 0..n.0 {
        let line = LineNo(m);
        most = seen_after(own_op(s, r, p, line), a.get(line), most);
    }
    most
}

// How many lines of a journal are of an earlier phase than line `n`.
fn of_earlier_phases(s: &Script, n: LineNo, j: &[LineNo]) -> u64
    ensures { result ≡ of_earlier_phases s.now n j.now }
{
    let phase = s.phase_of(n);
    j.iter().filter(|m| s.phase_of(**m) < phase).count() as u64
}

/// The front of line `n`, for its own client on its own path, whose journal is the first one of
/// that path; 0 where it is no operation.
pub fn front_of(s: &Script, a: &Answers, j: &Journals, n: LineNo) -> Version
    ensures { result ≡ front_at s.now (answer_at a.now.list) j.now n }
{
    match op_of(s, n) {
        Some(o) => {
            let seen = seen(s, a, o.rank, &o.path, n);
            Version(seen.max(of_earlier_phases(s, n, j.of(&o.path))))
        }
        None => Version(0),
    }
}
