//! What one client has opened and knows of files, and what all clients of a job were told of them.
//! It touches nothing outside memory.
//!
//! A path is known by a version and the attributes of its file at that version, if it has one
//! there. A client keeps of each path whether it has opened it, and the greatest version that it
//! noted (`Files`). What all clients are told at once is kept beside that, once for all of them
//! (`Board`). The **front** of a client on a path is the greater of the two versions: below it the
//! client may be shown nothing. Of a path that was never named nothing is open, and it has no file
//! at version 0.
//!
//! - `Files::opened` opens a path, for good.
//! - `Files::note` keeps the greater of the version that was noted before and this one, with its
//!   attributes; where both are the same, what was noted before.
//! - `Board::set` keeps this version with its attributes, in place of what was told before.
//! - `Files::is_open` and `Files::front` tell whether a path is open, and the front on it.
//! - `Files::at_front` gives what the client knows there (`Noted`): the version that is the front,
//!   with the attributes of the file at it. Where the client noted the version that was told, they
//!   are those that it noted.
//! - `Files::may_write` tells whether the client may write a path (`May`): it must be open, and at
//!   the front have a file that isn't frozen.
//!
//! Each call that changes something takes a path, and leaves every other as it is. It may take
//! memory; where that ran out all is as it was. The others take none.
//!
//! **Laws.** What is kept stands for what the client did and what all were told since both began:
//! open are the paths that it opened, of each path the greatest version that it noted is kept, and
//! on the board is what was told last. A path that was opened stays open. The
//! front is the greatest of the versions that were noted or told last, and what is known there was
//! noted or told with that version.
//!
//! An example:
//!
//! ```
//! let path = Path::read(alloc, b"/unifyfs/a")?;
//! // the client opens the path, and is shown 5 bytes at version 2
//! let mut files = Files::new(alloc)?;
//! files.opened(alloc, &path)?;
//! let five = Attr {
//!     exists: true,
//!     size: 5,
//!     frozen: false,
//! };
//! files.note(alloc, &path, Version(2), five)?;
//! let mut board = Board::new(alloc)?;
//! let noted = files.may_write(&board, &path);
//! // all are told that there is no file at version 3
//! let none = Attr {
//!     exists: false,
//!     size: 0,
//!     frozen: false,
//! };
//! board.set(alloc, &path, Version(3), none)?;
//! let told = files.may_write(&board, &path);
//! let known = files.at_front(&board, &path);
//! // `noted` is `May::Yes`, and `told` is `May::NoEnt(Version(3))`
//! // `known` has version 3, and that there is no file
//! ```
#![tactic(auto)]

mod board;
mod file_path;
mod files;
mod laws;
mod may;
mod noted;
mod path_map;

pub use board::Board;
pub use files::Files;
pub use laws::{
    files_stand_for_what_was_done, the_front_is_the_greatest_version, what_was_opened_stays_open,
};
pub use may::May;
pub use noted::Noted;

#[cfg(test)]
mod tests;
