//! Laws of files and boards. Each function does nothing: its contract is the law.

ghost use Rattle.client_files.specs.Deeds.{FrontIsGreatest, NewStands, NotedStands, OpenedStands};
ghost use Rattle.client_files.specs.Deeds.{SameStands, StaysOpen, ToldStands};

/// What is kept of a client's paths, and the board, stand for what the client did and what all were
/// told since both began: open are the paths that it opened, of each path the greatest of the
/// versions that it noted is kept, and on the board is what was told last. So it is from the first,
/// and after each call, also where memory ran out.
pub fn files_stand_for_what_was_done()
    ensures new { NewStands }
    ensures opened { OpenedStands }
    ensures noted { NotedStands }
    ensures told { ToldStands }
    ensures same { SameStands }
{}

/// A path that was opened is open for good.
pub fn what_was_opened_stays_open()
    ensures { StaysOpen }
{}

/// The front of a path is the greatest of the versions that were noted of it and of what all were
/// told last, and what is known there was noted or told with that version.
pub fn the_front_is_the_greatest_version()
    ensures { FrontIsGreatest }
{}
