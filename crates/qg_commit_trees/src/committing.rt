// What a commit makes of subvolumes' trees.
ghost use Rattle.std.specs.Prelude.{◌≡◌, ◌+◌, ◌^◌, ◌<◌, ◌≤◌, ℕ, List, IsTrue, map};
ghost use Rattle.std.specs.List.{list_all};
ghost use Rattle.qg_device.specs.History.{Event, History, Recorded};
ghost use Rattle.qg_num.specs.declared.piece.Piece.{Piece};
ghost use Rattle.qg_node.specs.declared.item.Item.{Item};
ghost use Rattle.qg_blocks.specs.NodesFound.{IsBacked};
ghost use Rattle.qg_blocks.specs.Writing.{AreWritten, Keeps};
ghost use Rattle.qg_space.specs.Holding.{is_free_slot};
ghost use Rattle.qg_shared_trees.specs.Standing.{CanTurn, IsSubvolume, Stands};
ghost use Rattle.qg_commit_trees.specs.Committing.{IsCommitted, StandsStill, WritesTree, for_generation};

use crate::slots::hold_besides;
use qg_disk::Disk;
use qg_num::{Address, Generation};
use qg_shared_trees::fs_tree::FsTree;
use qg_shared_trees::tree_backrefs::BookCopy;
use qg_tree_read::Tree;

/// The tree stands for the generation `next` to come.
fn for_generation(tree: &Tree, next: Generation) -> Tree
    ensures { result ≡ for_generation next tree.now }
{
    Tree::at(tree.root(), tree.height(), tree.owner(), next)
}

/// Trees stand for the generation `next` to come.
fn stand_for(trees: &mut [Tree], next: Generation)
    ensures { trees.new ≡ map (for_generation next) trees.old }
{
    for tree in trees.iter_mut() {
        *tree = for_generation(tree, next);
    }
}

/// A commit has written the fresh nodes to the disk: they are clean from now on, and the trees stand for the generation
/// to come. The commit holds the slots of the present state, and `others` besides, where the root, extent and quota
/// trees lie. It recorded the references, of which `copy` is a copy. It is done whole, and takes no memory.
pub fn committed<D: Disk>(fs: &mut FsTree, disk: &D, others: &[Address], copy: BookCopy)
    requires backed { IsBacked fs.old.land.blocks (D.history disk.now) }
    requires written { AreWritten fs.old.land.blocks.draft (D.history disk.now) }
    requires free { IsTrue (list_all (is_free_slot fs.old.land.space) others.now) }
    requires later { fs.old.tree.next + 1 < 2 ^ 64 }
    requires copy { copy ≡ fs.old.refs.refs }
    ensures committed { IsCommitted fs.old fs.new others.now }
    ensures subvolume { (before : History) (bytes : ℕ) → IsSubvolume fs.old before bytes
        → bytes ≤ D.size disk.now
        → IsSubvolume fs.new (D.history disk.now) (D.size disk.now) }
    ensures turns { CanTurn fs.old → CanTurn fs.new }
    ensures stands { (events : List Event) (bytes : ℕ) (items : List Item) (names : List (ℕ × Piece))
        → IsSubvolume fs.old (Recorded events) bytes → Stands fs.old (Recorded events) items names
        → WritesTree fs.old (Recorded events) (D.history disk.now) → (later : List Event)
        → D.history disk.now ≡ Recorded later
        → StandsStill fs.old fs.new (Recorded events) (D.history disk.now) items names }
{
    let _ascending = fs.refs.refs().len();
    let next = Generation::new(fs.tree.next().value() + 1);
    fs.refs.recorded(copy, next);
    hold_besides(&mut fs.land.space, others);
    fs.land.blocks.written(disk);
    fs.tree = for_generation(&fs.tree, next);
    stand_for(fs.others.as_mut_slice(), next);
}
