// The trees of subvolumes with what they lie in and what they owe.
ghost use Rattle.std.specs.Prelude.{◌≡◌, ◌+◌, ◌*◌, ◌<◌, ◌≤◌, Err, IsOk, MatchOption, OnOk};
ghost use Rattle.qg_num.specs.declared.fault.BlockFault.TheVariants.{Image};
ghost use Rattle.qg_num.specs.declared.rule.Rule.TheVariants.{Refs};
ghost use Rattle.qg_blocks.specs.NodesFound.{BreaksAt};
ghost use Rattle.qg_space.specs.Holding.{free_slots};

use qg_num::{BlockFault, Rule};
use qg_tree_backrefs::TreeRefs;
use qg_tree_edits::node_alloc::Ground;
use qg_tree_edits::tree_read::Tree;

/// The trees of an image's subvolumes, one of them at hand, with all that edits of it change (on-disk format, "B-tree"
/// and "backreferences"): the nodes and the space that all lie in, and the references that they owe.
#[derive(Drop)]
pub struct FsTree {
    /// The tree at hand.
    pub tree: Tree,
    /// The trees of the other subvolumes, ascending by number.
    pub others: Vec<Tree>,
    /// The nodes and the space that all trees lie in.
    pub land: Ground,
    /// The references that all trees owe.
    pub refs: TreeRefs,
}

impl FsTree {
    /// `Image` with `refs` where a reference was not there that should be, or was there already, and with its address.
    pub(crate) fn fitting(&self) -> Result<(), BlockFault>
        ensures { MatchOption self.now.refs.misfit (IsOk result) (λ address. result ≡ Err (Image Refs address)) }
    {
        match self.refs.misfit() {
            None => Ok(()),
            Some(address) => Err(BlockFault::Image {
                rule: Rule::Refs,
                address,
            }),
        }
    }

    /// `Image` with `refs` and the root's address where an edit may want more slots than are free.
    pub(crate) fn roomy(&self) -> Result<(), BlockFault>
        ensures room { OnOk result (3 * (self.now.tree.height + 2) ≤ free_slots self.now.land.space) }
        ensures enough { 3 * (self.now.tree.height + 2) ≤ free_slots self.now.land.space → IsOk result }
        ensures few { free_slots self.now.land.space < 3 * (self.now.tree.height + 2)
            → result ≡ Err (Image Refs self.now.tree.address) }
        ensures only { BreaksAt result Refs self.now.tree.address }
    {
        if 3 * (self.tree.height() as u64 + 2) > self.land.space.free_slots() {
            return Err(BlockFault::Image {
                rule: Rule::Refs,
                address: self.tree.root(),
            });
        }
        Ok(())
    }
}
