//! What a client is in the midst of between two events of one line.

ghost use Rattle.std.specs.Prelude.{◌≡◌, replicate, IfOk};

use crate::plain_hold::PlainHold;
use fs_types::{Attr, Frag, Version, Want};
use piece_table::PieceTable;
use std::alloc::Global;

/// A read under way.
#[derive(Drop)]
pub struct ReadTask {
    /// The version that it looked up.
    pub version: Version,
    /// The attributes of the file there.
    pub attr: Attr,
    /// The runs of bytes that it fetches, with their places counted from the first byte shown.
    pub runs: Vec<Frag>,
    /// A hold of each piece that the runs are of.
    pub pins: PieceTable<PlainHold>,
    /// How many runs were fetched.
    pub fetched: usize,
    /// The bytes to show; zeros where none was fetched yet.
    pub bytes: Vec<u8>,
}

/// What a client is in the midst of.
#[derive(Drop)]
pub enum Task {
    Idle,
    Read(ReadTask),
}

/// So many clients that are in the midst of nothing.
pub fn idle_tasks(alloc: Global, clients: u32) -> Result<Vec<Task>, Want>
    ensures { IfOk result (λ v. v.items ≡ replicate clients Task.Idle) }
{
    let mut tasks = Vec::with_capacity(alloc, clients as usize)?;
    for _ in 0..clients {
        tasks.push(Task::Idle)?;
    }
    Ok(tasks)
}
