//! Laws of maps. Each function does nothing: its contract is the law.

ghost use Rattle.client_map.specs.PendingWrites.{AddedStands, LentStands, NewStands, SameStands, TakenStands, TakingEmpties};

use fs_types::Hold;

/// What is pending on a path is what was written there since the last take: the marks of its
/// fragments are those of these writes, put in order over an empty file. After a take no write is
/// pending there, and no mark. Neither what is left behind the loan of a hold nor want of memory
/// changes that.
pub fn what_was_written_since_the_last_take_is_pending<H: Hold>()
    ensures none { NewStands H }
    ensures added { AddedStands H.piece }
    ensures taken { TakenStands H }
    ensures emptied { TakingEmpties }
    ensures lent { LentStands H }
    ensures same { SameStands H }
{}
