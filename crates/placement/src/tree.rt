//! The tree over all servers along which one of them reaches the others.

ghost use Rattle.std.specs.Prelude.{◌≡◌, ◌≤◌, ◌<◌, IfSome};
ghost use Rattle.placement.specs.Placement.{child_of};

use fs_types::ServerNo;

/// Child `i` of a server, counted from 1 to `arity`, in the tree over all servers that has this
/// root, and in which a server has at most `arity` children; none where it has fewer than `i`.
pub fn children(root: ServerNo, at: ServerNo, arity: u32, servers: u32, i: u32) -> Option<ServerNo>
    requires root { root < servers }
    requires at { at < servers }
    requires from_one { 1 ≤ i }
    requires to_arity { i ≤ arity }
    ensures child { result ≡ child_of root at arity servers i }
    ensures below { IfSome result (λ child. child < servers) }
{
    let count = u64::from(servers);
    let root = u64::from(root.0);
    let distance = (u64::from(at.0) + (count - root)) % count;
    let child_distance = u64::from(arity) * distance + u64::from(i);
    if child_distance < count {
        Some(ServerNo(((root + child_distance) % count) as u32))
    } else {
        None
    }
}
