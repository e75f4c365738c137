//! Where things are placed: the number that names a path's file, the server that owns it, the
//! server of a client, and the children of a server in a tree over all of them. Every server finds
//! the same by itself, from the path, the rank or the root alone. It takes no memory, and touches
//! nothing outside it.
#![tactic(auto)]

mod gfid;
mod laws;
mod server;
mod tree;

pub use gfid::{gfid_of, gfid_of_bytes, gfid_of_digest};
pub use laws::every_other_server_has_one_parent;
pub use server::{node_of, owner_of};
pub use tree::children;

#[cfg(test)]
mod tests;
