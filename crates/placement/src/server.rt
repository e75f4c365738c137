//! The server that owns a file, and the server on the node of a client.

ghost use Rattle.std.specs.Prelude.{◌≡◌, ◌≤◌, ◌<◌};
ghost use Rattle.placement.specs.Placement.{owner, node};

use fs_types::{Rank, ServerNo};

/// The server that owns a file, one of so many servers.
pub fn owner_of(gfid: u64, servers: u32) -> ServerNo
    requires { 1 ≤ servers }
    ensures owner { result ≡ owner gfid servers }
    ensures below { result < servers }
{
    ServerNo((gfid % u64::from(servers)) as u32)
}

/// The server on the node of a client, one of so many servers.
pub fn node_of(r: Rank, servers: u32) -> ServerNo
    requires { 1 ≤ servers }
    ensures node { result ≡ node r servers }
    ensures below { result < servers }
{
    ServerNo(r.0 % servers)
}
