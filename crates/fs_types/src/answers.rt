//! The answers of a job by line.

ghost use Rattle.std.specs.Prelude.{◌≡◌, ◌≤◌, [], All, IfOk, vec_len};
ghost use Rattle.std.specs.Option.{option_copied};
ghost use Rattle.fs_types.specs.AnswerList.{IsRisingFrom, answer_at, listed, put_answer};

use crate::answer::Answer;
use crate::number::LineNo;
use crate::want::Want;
use std::alloc::Global;
use std::marker::Model;

/// The answers to the lines of a job, as a table. A clause sees the list of the lines that were
/// answered, rising, each with its answer, and the number of lines.
#[derive(Debug, Drop)]
pub struct Answers {
    /// The answer to line k + 1 stands at place k.
    table: Vec<Option<Answer>>,
}

impl Model for Answers {
    ghost use Rattle.std.specs.Prelude.{◌<◌, ◌^◌, length};
    ghost use Rattle.fs_types.specs.AnswerList.{Given, listed};

    ghost Value = { Given };

    ghost view = { λ a. record { lines = length a.table.items; list = listed 1 a.table.items } };

    ghost invariant = { λ a. length a.table.items < 2 ^ 32 };
}

fn empty_table(alloc: Global, lines: u32) -> Result<Vec<Option<Answer>>, Want>
    ensures { IfOk result (λ t. (listed 1 t.items ≡ []) × (vec_len t ≡ lines)) }
{
    let mut table = Vec::with_capacity(alloc, lines as usize)?;
    for _ in 0..lines {
        table.push(None)?;
    }
    Ok(table)
}

impl Answers {
    /// No answers, with room for those to the lines from 1 to `lines`.
    pub fn new(alloc: Global, lines: u32) -> Result<Answers, Want>
        ensures { IfOk result (λ a. (a.list ≡ []) × (a.lines ≡ lines)) }
    {
        Ok(Answers {
            table: empty_table(alloc, lines)?,
        })
    }

    /// How many lines there is room for.
    pub fn lines(&self) -> u32
        ensures lines { result ≡ self.now.lines }
        ensures rising { IsRisingFrom 1 self.now.list }
        ensures within { All (λ x. x.0 ≤ self.now.lines) self.now.list }
    {
        self.table.len() as u32
    }

    /// The answer to a line, if one was given.
    pub fn get(&self, line: LineNo) -> Option<&Answer>
        ensures answer { option_copied result ≡ answer_at self.now.list line }
        ensures rising { IsRisingFrom 1 self.now.list }
        ensures within { All (λ x. x.0 ≤ self.now.lines) self.now.list }
    {
        let table = self.table.as_slice();
        let place = line.0.checked_sub(1)?;
        table.get(place as usize)?.as_ref()
    }

    /// Gives the answer to a line, in place of one that it had.
    pub fn set(&mut self, line: LineNo, a: Answer)
        requires from_one { 1 ≤ line }
        requires within { line ≤ self.old.lines }
        ensures list { self.new.list ≡ put_answer line a self.old.list }
        ensures lines { self.new.lines ≡ self.old.lines }
    {
        let place = line.0 as usize - 1;
        self.table[place] = Some(a);
    }
}
