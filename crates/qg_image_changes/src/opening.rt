// What is kept of an image that was just opened.
ghost use Rattle.std.specs.Prelude.{◌≡◌, ◌==◌, List, IfOk, IsTrue, map, not};
ghost use Rattle.std.specs.List.{filter};
ghost use Rattle.qg_device.specs.History.{Event, History, Recorded, content};
ghost use Rattle.qg_items.specs.declared.tree.TheConstants.{TOP_LEVEL as TOP};
ghost use Rattle.qg_super.specs.SuperText.{is_super};
ghost use Rattle.qg_image.specs.Table.{has_key};
ghost use Rattle.qg_image.specs.State.{State};
ghost use Rattle.qg_image.specs.StateOf.{StateOf};
ghost use Rattle.qg_blocks.specs.NodesFound.{IsBacked};
ghost use Rattle.qg_open_image.specs.IsImage.{IsEditable, IsImage};
ghost use Rattle.qg_open_image.specs.Keeping.{IsFitted, IsKeptOf};
ghost use Rattle.qg_image_changes.specs.Opened.{AreTreesIn, snapshot_of, tree_for};

use crate::holding::space_of;
use qg_blocks::Blocks;
use qg_items::RootItem;
use qg_items::tree::TOP_LEVEL;
use qg_node_alloc::Ground;
use qg_num::{Generation, NoMemory, RootId, Sequence};
use qg_open_image::check::Image;
use qg_open_image::fs_tree::FsTree;
use qg_open_image::tree_backrefs::TreeRefs;
use qg_open_image::{KeptSubvolume, OpenImage};
use qg_space::Space;
use qg_super::Super;
use qg_tree_items::root_of;
use qg_tree_read::Tree;
use qg_weighed::Weighed;
use std::alloc::{AllocError, Global};

/// What is kept of an image. Nothing is pending and no node is in memory; the present state holds what the subvolumes
/// reach, and the last commit the nodes of the other trees too.
pub fn kept_of(alloc: Global, image: Image) -> Result<OpenImage, NoMemory>
    requires { IsEditable image }
    ensures fitted { IfOk result (λ kept. IsFitted kept) }
    ensures backed { (history : History) → IfOk result (λ kept. IsBacked kept.fs.land.blocks history) }
    ensures keeps { (events : List Event) (state : State) → IsImage (content events) image
        → StateOf (content events) state
        → IfOk result (λ kept. IsKeptOf kept state (Recorded events)) }
    ensures superblock { IfOk result (λ kept. kept.superblock ≡ image.superblock) }
    ensures idle { IfOk result (λ kept. kept.pending ≡ 0) }
{
    let superblock = image.superblock;
    let space = space_of(
        alloc,
        &superblock,
        image.others.as_slice(),
        image.nodes.as_slice(),
        image.extents.as_slice(),
    )?;
    let _ascending = image.book.len();
    let refs = Weighed::new(image.book)?;
    let fs = trees_in(alloc, &superblock, image.roots.as_slice(), space, refs)?;
    Ok(OpenImage {
        alloc,
        superblock,
        snapshots: snapshots_of(alloc, image.roots.as_slice())?,
        quota: image.quota,
        fs,
        pending: 0,
    })
}

// The trees of an image's subvolumes, that of the top-level one at hand, for the generation to come. No node is in
// memory.
fn trees_in(
    alloc: Global,
    superblock: &Super,
    roots: &[(RootId, RootItem)],
    space: Space,
    refs: Weighed,
) -> Result<FsTree, NoMemory>
    requires superblock { IsTrue (is_super superblock.now) }
    requires top_level { IsTrue (has_key TOP roots.now) }
    ensures { IfOk result (λ fs. AreTreesIn superblock.now roots.now space refs fs) }
{
    let owner = RootId::new(TOP_LEVEL);
    let next = Generation::new(superblock.generation.value() + 1);
    let blocks = Blocks::new(alloc, superblock.nodesize, superblock.slots)?;
    let Some(root) = root_of(owner, roots) else {
        unreachable!()
    };
    Ok(FsTree {
        tree: Tree::at(root.bytenr, root.level, owner, next),
        others: others_of(alloc, roots, owner, next)?,
        land: Ground { blocks, space },
        refs: TreeRefs::new(refs, owner, u64::from(superblock.nodesize), next),
    })
}

// The trees of the other subvolumes than the one of a number, in their order, for a generation to come.
fn others_of(
    alloc: Global,
    roots: &[(RootId, RootItem)],
    number: RootId,
    next: Generation,
) -> Result<Vec<Tree>, AllocError>
    ensures { IfOk result (λ trees. trees.items
        ≡ map (tree_for next) (filter (λ entry. not (entry.0 == number)) roots.now)) }
{
    let mut trees = Vec::new(alloc);
    for entry in roots {
        if entry.0 != number {
            trees.push(Tree::at(entry.1.bytenr, entry.1.level, entry.0, next))?;
        }
    }
    Ok(trees)
}

// What is kept of each subvolume, by number.
fn snapshots_of(
    alloc: Global,
    roots: &[(RootId, RootItem)],
) -> Result<Sequence<(RootId, KeptSubvolume)>, AllocError>
    ensures { IfOk result (λ snapshots. snapshots ≡ map snapshot_of roots.now) }
{
    let mut snapshots = Sequence::new(alloc);
    for entry in roots {
        let last_snapshot = entry.1.last_snapshot;
        snapshots.push((entry.0, KeptSubvolume { last_snapshot }))?;
    }
    Ok(snapshots)
}
