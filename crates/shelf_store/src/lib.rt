//! Replicas of one owner's files at one server: of each path at most one, a whole file at a
//! version. The crate touches nothing outside memory, and looks at no byte of a file: a shelf is
//! generic over the holds of a replica's pieces, which can be of any type.
//!
//! A replica stands on the path that it names itself, which is found by its bytes. Each path has a
//! **floor**, the version below which no replica is put there; at first it is 0. Replicas may come
//! late, and in any order: of those that come the greatest version is kept.
//!
//! - `put` puts a replica on its path, in place of what stands there, which comes out. Where its
//!   version is below the floor, or below that of what stands there, it comes back with the greater
//!   of both; one of the same version is put.
//! - `drop_below` raises the floor of a path to a version, unless it is as high. A replica whose
//!   version is below the floor then comes out.
//! - `get` and `find` give the replica of a path, if its version is at least a `front`, to read and
//!   to change.
//!
//! Each call leaves every other path as it is. Memory runs out only in a put or a drop on a path
//! whose floor is 0 and on which no replica stands: all is as before then, and what was to be put
//! comes back. `get` and `find` take none.
//!
//! **What a caller owes.** What is left behind the reference of `find` stands on the path then,
//! whatever it is. Who changes it leaves its path and its version as they are (`IsOfSameVersion`):
//! the laws ask that of a loan, and count what is left as put.
//!
//! **Laws.** A shelf finds exactly the replicas that a front allows: one is found exactly where one
//! of a version at least the front was put and never dropped, and it is the last of those of the
//! greatest version that were put on the path. Floors and versions never fall.
//!
//! An example:
//!
//! ```
//! let path = Path::read(alloc, b"/unifyfs/a")?;
//! // a file of 5 zeros at a version
//! let zeros = |version| -> Result<Replica<MemHold>, Want> {
//!     Ok(Replica {
//!         path: path.copy(alloc)?,
//!         version: Version(version),
//!         size: 5,
//!         frags: Vec::new(alloc),
//!         holds: Vec::new(alloc),
//!     })
//! };
//! let mut shelf = Shelf::new(alloc)?;
//! let first = shelf.put(alloc, zeros(4)?);
//! // `first` is `Put::Kept(None)`
//! let late = shelf.put(alloc, zeros(3)?);
//! // `late` is `Put::Older` with the replica, and `Version(4)`
//! let found = shelf.get(&path, Version(4)).is_some();
//! let ahead = shelf.get(&path, Version(5)).is_some();
//! // `found` is true, and `ahead` is false
//! let out = shelf.drop_below(alloc, &path, Version(6))?;
//! // `out` is the replica of version 4
//! let dropped = shelf.put(alloc, zeros(5)?);
//! // `dropped` is `Put::Older` with the replica, and `Version(6)`
//! ```
#![tactic(auto)]

mod laws;
mod put;
mod shelf;
mod shelf_path;

pub use laws::{
    a_shelf_finds_exactly_what_a_front_allows, floors_and_versions_never_fall,
    shelves_stand_for_what_was_put_and_dropped,
};
pub use put::Put;
pub use shelf::Shelf;

#[cfg(test)]
mod tests;
