// That a subvolume without files and a snapshot of it are made with ample memory, in which slots, and what refers to
// them.
ghost use Rattle.std.specs.Prelude.{◌≡◌, ◌<◌, ◌≤◌, IsTrue, OnOk};
ghost use Rattle.qg_image.specs.ItemMeaning.{is_subvolume_number};
ghost use Rattle.qg_super.specs.Places.{second_place};
ghost use Rattle.qg_tree_edits.specs.Editing.{IsEditable};

use qg_disk::{Disk, MemDisk};
use qg_extents::Extents;
use qg_items::Reference;
use qg_node_alloc::Ground;
use qg_num::{Address, Generation, RootId, Steps};
use qg_subvolumes::{create, snapshot};
use qg_super::{SECOND_PLACE, Sizes};
use qg_tree_backrefs::TreeRefs;
use qg_tree_read::Tree;
use qg_weighed::Weighed;
use std::alloc::Global;
use std::marker::Brand;
use std::process::Abort;
use std::sync::ledger::{Blank, Ledger};
use std::test::Fail;

// The first two slots of 4096 bytes.
const FIRST: u64 = 1048576;

const SECOND: u64 = 1052672;

// A subvolume, and another as its snapshot.
fn make_both<D: Disk, L: Ledger>(
    alloc: Global,
    land: &mut Ground,
    disk: &mut D,
    sub: RootId,
    copy: RootId,
    next: Generation,
    book: &mut TreeRefs,
    reads: &mut Steps<L>,
) -> Result<(Tree, Tree), Fail>
    requires editable { IsEditable land.old (D.history disk.old) (D.size disk.old) next }
    requires number { IsTrue (is_subvolume_number sub) }
    requires other { IsTrue (is_subvolume_number copy) }
    requires book { book.old.tree ≡ sub }
    requires next { book.old.next ≡ next }
{
    if land.space.free_slots() == 0 {
        return Err(Fail::from("no slot is free"));
    }
    let tree = create(alloc, land, disk, sub, next, book, reads)?;
    book.stand_for(copy);
    if land.space.free_slots() == 0 {
        return Err(Fail::from("one slot is free"));
    }
    let other = snapshot(alloc, land, disk, &tree, copy, book, reads)?;
    Ok((tree, other))
}

// Makes a disk so long that all slots lie inside.
fn lengthen<D: Disk>(disk: &mut D) -> Result<(), Fail>
    ensures { OnOk result (second_place ≤ D.size disk.new) }
{
    disk.write_at(SECOND_PLACE - 1, &[0])?;
    if disk.len() < SECOND_PLACE {
        return Err(Fail::from("the disk is short"));
    }
    Ok(())
}

// Whether a subvolume refers to a node.
fn has(refs: &Extents, at: u64, tree: u64) -> bool {
    let root = RootId::new(tree);
    refs.count_one(Address::new(at), &Reference::KeyedBlock { root }) > 0
}

fn is_at(tree: &Tree, root: u64, owner: u64) -> bool {
    tree.root() == Address::new(root) && tree.owner() == RootId::new(owner) && tree.height() == 0
}

// Whether both lie in the first two slots, and each has the one reference of its subvolume.
fn are_made(land: &Ground, book: &TreeRefs, tree: &Tree, other: &Tree) -> bool {
    let refs = book.refs();
    book.misfit().is_none()
        && is_at(tree, FIRST, 256)
        && is_at(other, SECOND, 257)
        && has(refs, FIRST, 256)
        && has(refs, SECOND, 257)
        && !has(refs, FIRST, 257)
        && !has(refs, SECOND, 256)
        && land.space.taken_slots() == 2
}

#[tactic(auto, unfolding(qg_super::specs::Places::is_served, qg_image::specs::ItemMeaning::is_subvolume_number))]
fn begin_both<D: Disk, L: Ledger>(
    rt: &impl Abort,
    alloc: Global,
    disk: &mut D,
    blank: Blank,
) -> Result<(), Fail>
    requires name { blank.name ≡ L.name }
    requires parts { blank.parts ≡ L.parts }
    requires some { 0 < blank.parts }
{
    lengthen(disk)?;
    let mut reads = Steps::<L>::new(blank);
    let mut land = Ground::new(
        alloc,
        Sizes {
            nodesize: 4096,
            slots: 64,
            sectors: 16,
        },
    )?;
    let refs = Weighed::new(Extents::new(alloc))?;
    let (sub, copy, next) = (RootId::new(256), RootId::new(257), Generation::new(2));
    let mut book = TreeRefs::new(refs, sub, 4096, next);
    let (tree, other) = make_both(
        alloc, &mut land, disk, sub, copy, next, &mut book, &mut reads,
    )?;
    assert!(rt; are_made(&land, &book, &tree, &other));
    Ok(())
}

#[test]
fn a_subvolume_and_its_snapshot_begin(rt: HostRuntime) -> Result<(), Fail> {
    let alloc = rt.alloc();
    begin_both::<MemDisk, Brand>(&rt, alloc, &mut MemDisk::new(alloc), Blank::new(1))
}
