//! Binary trees of slot numbers, each node with the least number below it. They lie in one list,
//! and touch nothing else.

ghost use Rattle.std.specs.Prelude.{◌≡◌, ◌≢◌, ℕ, ◌+◌, ◌*◌, ◌/◌, ◌^◌, ◌≤◌, ◌<◌, IfOk, OnOk, length};
ghost use Rattle.slot_plain.specs.LeastTree.{tree_node, HasLesser, IsTree, IsTreeBut, LeafSet, Widens};

use fs_types::Want;
use std::alloc::Global;

/// Stands for no slot. It is above the number of every slot.
pub const NO_SLOT: u32 = u32::MAX;

#[tactic(auto, using(crate::proofs::LeastTrees::settle_laws))]
// Sets every node above a leaf to the lesser of the two below it, from the node `at` on.
fn settle_from(tree: &mut [u32], room: usize, leaf: usize)
    requires leaf { leaf < 2 * room }
    requires tree { IsTreeBut (leaf / 2) tree.old room }
    ensures tree { IsTree tree.new room }
    ensures leaves { (i : ℕ) → room ≤ i → tree_node tree.new i ≡ tree_node tree.old i }
{
    let mut at = leaf / 2;
    while at > 0 {
        tree[at] = tree[2 * at].min(tree[2 * at + 1]);
        at /= 2;
    }
}

// Sets every node above the leaves.
fn settle(tree: &mut [u32], room: usize)
    requires { length tree.old ≡ 2 * room }
    ensures tree { IsTree tree.new room }
    ensures leaves { (i : ℕ) → room ≤ i → tree_node tree.new i ≡ tree_node tree.old i }
{
    let mut at = room;
    while at > 1 {
        at -= 1;
        tree[at] = tree[2 * at].min(tree[2 * at + 1]);
    }
}

// A tree with the leaves of this one, and more behind them.
fn widened(alloc: Global, tree: &[u32], room: usize, wide: usize) -> Result<Vec<u32>, Want>
    requires tree { length tree.now ≡ 2 * room }
    requires wide { room ≤ wide }
    requires few { wide < 2 ^ 62 }
    ensures tree { IfOk result (λ v. IsTree v.items wide) }
    ensures leaves { IfOk result (λ v. Widens room wide tree.now v.items) }
{
    let mut all = vec![in alloc; NO_SLOT; 2 * wide]?;
    all[wide..wide + room].copy_from_slice(&tree[room..]);
    settle(&mut all, wide);
    Ok(all)
}

/// A tree with room for so many leaves, each of them the number of a slot or none. Node 1 is the
/// root, and the nodes 2i and 2i + 1 are below node i; there is no node 0.
#[derive(Debug, Drop)]
pub struct LeastTree {
    pub nodes: Vec<u32>,
    pub room: usize,
}

impl LeastTree {
    /// No leaf. It takes no memory.
    pub fn new(alloc: Global) -> LeastTree
        ensures tree { IsTree result.nodes.items result.room }
        ensures room { result.room ≡ 0 }
    {
        LeastTree {
            nodes: Vec::new(alloc),
            room: 0,
        }
    }

    /// The least number of all leaves.
    pub fn least(&self) -> u32
        requires { 1 < length self.now.nodes.items }
        ensures { result ≡ tree_node self.now.nodes.items 1 }
    {
        self.nodes[1]
    }

    /// Gives the leaf of a slot a value. It takes no memory.
    pub fn set_leaf(&mut self, slot: usize, value: u32)
        requires slot { slot < self.old.room }
        requires tree { IsTree self.old.nodes.items self.old.room }
        ensures tree { IsTree self.new.nodes.items self.old.room }
        ensures leaf { LeafSet slot value self.old.room self.old.nodes.items self.new.nodes.items }
        ensures room { self.new.room ≡ self.old.room }
    {
        let leaf = self.room + slot;
        self.nodes[leaf] = value;
        settle_from(&mut self.nodes, self.room, leaf);
    }

    /// Makes twice as much room where there is none for one more leaf.
    pub fn widen_for(&mut self, alloc: Global, leaves: usize) -> Result<(), Want>
        requires leaves { leaves ≤ self.old.room }
        requires few { leaves < 2 ^ 32 }
        requires tree { IsTree self.old.nodes.items self.old.room }
        ensures room { OnOk result (leaves < self.new.room) }
        ensures more { self.old.room ≤ self.new.room }
        ensures tree { IsTree self.new.nodes.items self.new.room }
        ensures leaves { Widens self.old.room self.new.room
            self.old.nodes.items self.new.nodes.items }
    {
        if leaves < self.room {
            return Ok(());
        }
        let wide = (2 * self.room).max(1);
        self.nodes = widened(alloc, &self.nodes, self.room, wide)?;
        self.room = wide;
        Ok(())
    }
}
