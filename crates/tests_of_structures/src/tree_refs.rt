// Tables of what copies do, and leaving a node, by hand (docs/MACHINE.md), and that calls succeed with ample memory.
// Addresses are in bytes.
ghost use Rattle.std.specs.Prelude.{◌≡◌, ◌<◌, ℕ, List, IfOk};
ghost use Rattle.qg_device.specs.History.{History};
ghost use Rattle.qg_blocks.specs.NodesFound.{IsBacked};
ghost use Rattle.qg_node_alloc.specs.Land.{IsDrafted};

use qg_disk::{Disk, MemDisk};
use qg_extents::Extents;
use qg_items::kind::EXTENT_DATA;
use qg_items::{EXTENT_DATA_BYTES, ExtentData, Reference, write_extent_data};
use qg_node::{Body, Header, Item, Items, Node, write_node};
use qg_node_alloc::{Ground, cow_node, leave_node};
use qg_num::{Address, Generation, Ino, Key, NoMemory, RootId, Steps};
use qg_refs::{What, greatest_count};
use qg_super::Sizes;
use qg_tree_backrefs::TreeRefs;
use qg_weighed::Weighed;
use std::alloc::Global;
use std::marker::Brand;
use std::process::Abort;
use std::sync::ledger::{Blank, Ledger};
use std::test::Fail;

// The first two slots of 4096 bytes, and an extent behind all slots.
const ROOT: u64 = 1048576;

const COPY: u64 = 1052672;

const EXTENT: u64 = 5242880;

// The first 4096 bytes of file 257.
fn piece(alloc: Global) -> Result<Item, NoMemory> {
    let told = ExtentData {
        generation: Generation::new(1),
        ram_bytes: 4096,
        disk_bytenr: Address::new(EXTENT),
        disk_num_bytes: 4096,
        offset: 0,
        num_bytes: 4096,
    };
    let mut bytes = [0; EXTENT_DATA_BYTES];
    write_extent_data(&told, &mut bytes);
    Ok(Item {
        key: Key {
            objectid: 257,
            kind: EXTENT_DATA,
            offset: 0,
        },
        body: Body::from_slice(alloc, &bytes)?,
    })
}

// Writes a leaf of subvolume 5 and of generation 1, with one piece, into the first slot.
fn write_root<D: Disk>(alloc: Global, disk: &mut D) -> Result<(), Fail> {
    let mut items = Items::new(alloc);
    items.push(piece(alloc)?)?;
    let node = Node::Leaf {
        header: Header {
            address: Address::new(ROOT),
            generation: Generation::new(1),
            owner: RootId::new(5),
            level: 0,
        },
        items,
    };
    if !node.has_text(4096) {
        return Err(Fail::from("a leaf has no text"));
    }
    let mut bytes = [0; 4096];
    write_node(&node, &mut bytes);
    disk.write_at(ROOT, &bytes)?;
    Ok(())
}

// 64 slots of 4096 bytes, of which the present state and the last commit hold the first.
#[tactic(auto, unfolding(qg_super::specs::Places::is_served))]
fn land(alloc: Global) -> Result<Ground, Fail>
    ensures size { IfOk result (λ land. land.space.sizes.nodesize ≡ 4096) }
    ensures backed { IfOk result (λ land. (history : History) → IsBacked land.blocks history) }
    ensures drafted { IfOk result (λ land. (generation : ℕ) → IsDrafted land generation) }
{
    let mut land = Ground::new(
        alloc,
        Sizes {
            nodesize: 4096,
            slots: 64,
            sectors: 16,
        },
    )?;
    let _first = land.space.take_slot()?;
    land.space.committed();
    Ok(land)
}

fn way_of(tree: u64) -> Reference {
    Reference::KeyedBlock {
        root: RootId::new(tree),
    }
}

fn from_file() -> Reference {
    Reference::KeyedData {
        root: RootId::new(5),
        ino: Ino::new(257),
        offset: 0,
    }
}

fn from_root() -> Reference {
    Reference::SharedData {
        parent: Address::new(ROOT),
    }
}

// One reference more, to a leaf or to an extent.
fn put(refs: &mut Extents, at: u64, level: Option<u8>, reference: Reference) -> Result<(), Fail> {
    let what = What {
        bytes: 4096,
        level,
        generation: Generation::new(1),
    };
    let at = Address::new(at);
    if refs.count_one(at, &reference) >= greatest_count(&reference) {
        return Err(Fail::from("a reference is there already"));
    }
    refs.add_one(at, what, reference)?;
    Ok(())
}

// Whether a reference is there.
fn has(refs: &Extents, at: u64, reference: Reference) -> bool {
    refs.count_one(Address::new(at), &reference) > 0
}

// Owns the root as subvolume 5, by generation 2.
fn own<D: Disk, L: Ledger>(
    alloc: Global,
    land: &mut Ground,
    disk: &mut D,
    book: &mut TreeRefs,
    reads: &mut Steps<L>,
) -> Result<Address, Fail>
    requires backed { IsBacked land.old.blocks (D.history disk.old) }
    requires drafted { IsDrafted land.old 2 }
    ensures backed { IsBacked land.new.blocks (D.history disk.new) }
    ensures drafted { IsDrafted land.new 2 }
{
    if land.space.free_slots() == 0 {
        return Err(Fail::from("no slot is free"));
    }
    let (root, owner, next) = (Address::new(ROOT), RootId::new(5), Generation::new(2));
    Ok(cow_node(alloc, land, disk, book, root, owner, next, reads)?)
}

fn book_of(refs: Weighed, tree: u64) -> TreeRefs {
    TreeRefs::new(refs, RootId::new(tree), 4096, Generation::new(2))
}

// The root and the extent of its piece, each with one reference.
fn book_of_one(alloc: Global) -> Result<TreeRefs, Fail> {
    let mut refs = Extents::new(alloc);
    put(&mut refs, ROOT, Some(0), way_of(5))?;
    put(&mut refs, EXTENT, None, from_file())?;
    Ok(book_of(Weighed::new(refs)?, 5))
}

// The copy has what the root owed, and the root's slot is given back.
fn is_taken_over(land: &Ground, book: &TreeRefs, copy: Address) -> bool {
    let refs = book.refs();
    copy.value() == COPY
        && book.misfit().is_none()
        && !land.space.has_slot(Address::new(ROOT))
        && refs.how_many(Address::new(ROOT)) == 0
        && has(refs, COPY, way_of(5))
        && refs.how_many(copy) == 1
        && has(refs, EXTENT, from_file())
        && !has(refs, EXTENT, from_root())
}

// The root has one reference: the copy takes over what it owed, and its slot is given back.
fn take_over<D: Disk, L: Ledger>(
    rt: &impl Abort,
    alloc: Global,
    disk: &mut D,
    blank: Blank,
) -> Result<(), Fail>
    requires name { blank.name ≡ L.name }
    requires parts { blank.parts ≡ L.parts }
    requires some { 0 < blank.parts }
{
    let mut reads = Steps::<L>::new(blank);
    write_root(alloc, disk)?;
    let mut land = land(alloc)?;
    let mut book = book_of_one(alloc)?;
    let copy = own(alloc, &mut land, disk, &mut book, &mut reads)?;
    assert!(rt; is_taken_over(&land, &book, copy));
    // A node and its reference take 49 + 25, the extent and its reference 49 + 53. The last commit recorded the root.
    assert!(rt; book.bytes() == 74 + 74 + 102);
    let copy = book.to_record()?;
    book.recorded(copy, Generation::new(3));
    assert!(rt; book.bytes() == 74 + 102);
    Ok(())
}

#[test]
fn a_node_of_one_subvolume_is_taken_over(rt: HostRuntime) -> Result<(), Fail> {
    let alloc = rt.alloc();
    take_over::<MemDisk, Brand>(&rt, alloc, &mut MemDisk::new(alloc), Blank::new(1))
}

// The same, where subvolume 256 has the root too.
fn book_of_two(alloc: Global) -> Result<TreeRefs, Fail> {
    let mut refs = Extents::new(alloc);
    put(&mut refs, ROOT, Some(0), way_of(5))?;
    put(&mut refs, ROOT, Some(0), way_of(256))?;
    put(&mut refs, EXTENT, None, from_file())?;
    Ok(book_of(Weighed::new(refs)?, 5))
}

// The root stays, full and with the reference of 256, and the extent has a shared reference from it.
fn is_shared(land: &Ground, book: &TreeRefs, copy: Address) -> bool {
    let root = Address::new(ROOT);
    let refs = book.refs();
    book.misfit().is_none()
        && land.space.has_slot(root)
        && refs.is_marked(root)
        && !refs.is_marked(copy)
        && has(refs, ROOT, way_of(256))
        && !has(refs, ROOT, way_of(5))
        && has(refs, EXTENT, from_file())
        && has(refs, EXTENT, from_root())
}

// The root is gone, and so is its reference to the extent.
fn is_left(land: &Ground, book: &TreeRefs) -> bool {
    let root = Address::new(ROOT);
    let refs = book.refs();
    book.misfit().is_none()
        && !land.space.has_slot(root)
        && refs.how_many(root) == 0
        && has(refs, COPY, way_of(5))
        && has(refs, EXTENT, from_file())
        && !has(refs, EXTENT, from_root())
}

// Subvolume 256 has the root too: the root becomes full, and its extent has a shared reference from it. Once 256 leaves
// the root, it goes, and so does that reference.
fn share_and_leave<D: Disk, L: Ledger>(
    rt: &impl Abort,
    alloc: Global,
    disk: &mut D,
    blank: Blank,
) -> Result<(), Fail>
    requires name { blank.name ≡ L.name }
    requires parts { blank.parts ≡ L.parts }
    requires some { 0 < blank.parts }
{
    let mut reads = Steps::<L>::new(blank);
    write_root(alloc, disk)?;
    let mut land = land(alloc)?;
    let mut book = book_of_two(alloc)?;
    let copy = own(alloc, &mut land, disk, &mut book, &mut reads)?;
    assert!(rt; is_shared(&land, &book, copy));
    let mut book = book_of(book.into_refs(), 256);
    let root = Address::new(ROOT);
    leave_node(&mut land, disk, &mut book, root, &mut reads)?;
    assert!(rt; is_left(&land, &book));
    Ok(())
}

#[test]
fn a_shared_node_turns_full_and_goes(rt: HostRuntime) -> Result<(), Fail> {
    let alloc = rt.alloc();
    share_and_leave::<MemDisk, Brand>(&rt, alloc, &mut MemDisk::new(alloc), Blank::new(1))
}

// Only subvolume 256 has the root.
fn book_of_another(alloc: Global) -> Result<TreeRefs, Fail> {
    let mut refs = Extents::new(alloc);
    put(&mut refs, ROOT, Some(0), way_of(256))?;
    Ok(book_of(Weighed::new(refs)?, 5))
}

// Only subvolume 256 has the root: that 5 copies it is a misfit.
fn copy_of_another<D: Disk, L: Ledger>(
    rt: &impl Abort,
    alloc: Global,
    disk: &mut D,
    blank: Blank,
) -> Result<(), Fail>
    requires name { blank.name ≡ L.name }
    requires parts { blank.parts ≡ L.parts }
    requires some { 0 < blank.parts }
{
    let mut reads = Steps::<L>::new(blank);
    write_root(alloc, disk)?;
    let mut land = land(alloc)?;
    let mut book = book_of_another(alloc)?;
    let _copy = own(alloc, &mut land, disk, &mut book, &mut reads)?;
    assert!(rt; book.misfit() == Some(Address::new(ROOT)));
    assert!(rt; has(book.refs(), ROOT, way_of(256)));
    Ok(())
}

#[test]
fn a_missing_reference_is_noted(rt: HostRuntime) -> Result<(), Fail> {
    let alloc = rt.alloc();
    copy_of_another::<MemDisk, Brand>(&rt, alloc, &mut MemDisk::new(alloc), Blank::new(1))
}
