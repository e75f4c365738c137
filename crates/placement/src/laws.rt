//! A law of the tree over all servers. The function does nothing: its contract is the law.

ghost use Rattle.placement.specs.ChildLaws.{OthersHaveOneParent, RootHasNoParent};

/// Every server but the root is the child of exactly one server, and of that one once. Its parent
/// is nearer to the root, which is nobody's child.
pub fn every_other_server_has_one_parent()
    ensures others { OthersHaveOneParent }
    ensures root { RootHasNoParent }
{}
