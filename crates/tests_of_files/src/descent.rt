// What no clause says: that calls succeed with ample memory, over a disk and with room for one node. What is expected
// was worked out by hand.
ghost use Rattle.std.specs.Prelude.{◌≡◌, ◌<◌, ◌≤◌, IfOk};
ghost use Rattle.qg_tree_read.specs.Way.{IsReadable};

use qg_blocks::Blocks;
use qg_disk::{Disk, MemDisk};
use qg_image::FilePart;
use qg_node::{Body, Header, Item, Items, Node, Pointer, Pointers, write_node};
use qg_num::{Address, BlockFault, Generation, Key, NoMemory, RootId, Rule, Steps};
use qg_tree_read::Tree;
use std::alloc::Global;
use std::marker::Brand;
use std::process::Abort;
use std::sync::ledger::{Blank, Ledger};
use std::test::Fail;

// 62 leaves of 4096 bytes, one after the other from the first slot on, two nodes of level 1 above them, and the root of
// level 2.
const FIRST: u64 = 1048576;

const LEAVES: u64 = 62;

const ROOT: u64 = FIRST + 64 * 4096;

fn header(place: u64, level: u8) -> Header
    requires { place ≤ 64 }
{
    Header {
        address: Address::new(FIRST + place * 4096),
        generation: Generation::new(3),
        owner: RootId::new(5),
        level,
    }
}

fn key(object: u64, offset: u64) -> Key {
    Key {
        objectid: object,
        kind: 1,
        offset,
    }
}

fn item(alloc: Global, object: u64, offset: u8) -> Result<Item, NoMemory> {
    Ok(Item {
        key: key(object, u64::from(offset)),
        body: Body::from_slice(alloc, &[offset; 490])?,
    })
}

// The leaf with that number, whose items have 490 bytes, of 3 and of 7, at offsets 3 and 7 of the object with that
// number.
fn leaf(alloc: Global, number: u64) -> Result<Node, NoMemory>
    requires { number ≤ 61 }
{
    let mut items = Items::new(alloc);
    items.push(item(alloc, number, 3)?)?;
    items.push(item(alloc, number, 7)?)?;
    Ok(Node::Leaf {
        header: header(number, 0),
        items,
    })
}

// Pointers to so many nodes from a place on, each of which begins so many objects behind the one before.
fn inner(
    alloc: Global,
    place: u64,
    level: u8,
    first: u64,
    count: u64,
    objects: u64,
) -> Result<Node, NoMemory>
    requires place { place ≤ 64 }
    requires first { first ≤ 64 }
    requires count { count ≤ 64 }
    requires objects { objects ≤ 64 }
{
    let mut pointers = Pointers::new(alloc);
    for at in 0..count {
        pointers.push(Pointer {
            key: key((first + at) % LEAVES * objects, 3),
            child: Address::new(FIRST + (first + at) * 4096),
            generation: Generation::new(3),
        })?;
    }
    Ok(Node::Inner {
        header: header(place, level),
        pointers,
    })
}

fn write_one<D: Disk>(disk: &mut D, place: u64, node: &Node) -> Result<(), Fail>
    requires { place ≤ 64 }
{
    if !node.has_text(4096) {
        return Err(Fail::from("a node has no text"));
    }
    let mut bytes = [0; 4096];
    write_node(node, &mut bytes);
    disk.write_at(FIRST + place * 4096, &bytes)?;
    Ok(())
}

// Writes the tree, and gives the nodes of the disk with room for one in memory.
#[tactic(auto, unfolding(qg_super::specs::Places::is_served))]
fn laid_out<D: Disk>(alloc: Global, disk: &mut D) -> Result<Blocks, Fail>
    ensures { IfOk result (λ blocks. IsReadable blocks (D.history disk.new) (D.size disk.new)) }
{
    for number in 0..LEAVES {
        write_one(disk, number, &leaf(alloc, number)?)?;
    }
    write_one(disk, 62, &inner(alloc, 62, 1, 0, 31, 1)?)?;
    write_one(disk, 63, &inner(alloc, 63, 1, 31, 31, 1)?)?;
    write_one(disk, 64, &inner(alloc, 64, 2, 62, 2, 31)?)?;
    Ok(Blocks::with_bound(alloc, 4096, 128, 1)?)
}

fn tree() -> Tree {
    Tree::at(Address::new(ROOT), 2, RootId::new(5), Generation::new(4))
}

// Whether a body is there as it is wanted: none for 0, else one whose bytes are this.
fn is_body(found: &Result<Option<Body>, BlockFault>, wanted: u8) -> bool {
    match found {
        Ok(Some(body)) => body.len() == 490 && body.as_slice()[0] == wanted,
        Ok(None) => wanted == 0,
        Err(_) => false,
    }
}

fn get_each<D: Disk, L: Ledger>(
    rt: &impl Abort,
    alloc: Global,
    blocks: &mut Blocks,
    disk: &mut D,
    reads: &mut Steps<L>,
) -> Result<(), Fail>
    requires { IsReadable blocks.old (D.history disk.old) (D.size disk.old) }
{
    let cases = [
        (0, 3, 3),
        (30, 7, 7),
        (31, 3, 3),
        (61, 7, 7),
        (61, 8, 0),
        (0, 2, 0),
        (31, 5, 0),
    ];
    for (object, offset, wanted) in cases {
        let at = key(object, offset);
        let found = tree().get::<FilePart, D, L>(alloc, blocks, disk, at, reads);
        assert!(rt; is_body(&found, wanted), "{object} {offset}");
    }
    Ok(())
}

fn get_three<D: Disk, L: Ledger>(
    rt: &impl Abort,
    alloc: Global,
    disk: &mut D,
    blank: Blank,
) -> Result<(), Fail>
    requires name { blank.name ≡ L.name }
    requires parts { blank.parts ≡ L.parts }
    requires some { 0 < blank.parts }
{
    let mut reads = Steps::<L>::new(blank);
    let mut blocks = laid_out(alloc, disk)?;
    get_each(rt, alloc, &mut blocks, disk, &mut reads)
}

#[test]
fn bodies_are_found_over_three_levels(rt: HostRuntime) -> Result<(), Fail> {
    let alloc = rt.alloc();
    get_three::<MemDisk, Brand>(&rt, alloc, &mut MemDisk::new(alloc), Blank::new(1))
}

// Whether this is the item at an offset of an object.
fn is_item(found: &Item, object: u64, offset: u64) -> bool {
    found.key == key(object, offset) && found.body.len() == 490
}

// Whether the item at an offset of an object was found.
fn has_found(found: &Result<Option<Item>, BlockFault>, object: u64, offset: u64) -> bool {
    match found {
        Ok(Some(item)) => is_item(item, object, offset),
        _ => false,
    }
}

fn last_of_each<D: Disk, L: Ledger>(
    rt: &impl Abort,
    alloc: Global,
    blocks: &mut Blocks,
    disk: &mut D,
    reads: &mut Steps<L>,
) -> Result<(), Fail>
    requires { IsReadable blocks.old (D.history disk.old) (D.size disk.old) }
{
    let cases = [(0, 3, 0, 3), (31, 2, 30, 7), (31, 5, 31, 3), (99, 0, 61, 7)];
    for (object, offset, there, at) in cases {
        let to = key(object, offset);
        let found = tree().last_to::<FilePart, D, L>(alloc, blocks, disk, to, reads);
        assert!(rt; has_found(&found, there, at), "{object} {offset}");
    }
    let found = tree().last_to::<FilePart, D, L>(alloc, blocks, disk, key(0, 2), reads);
    assert!(rt; matches!(&found, Ok(None)));
    Ok(())
}

fn last_of_three<D: Disk, L: Ledger>(
    rt: &impl Abort,
    alloc: Global,
    disk: &mut D,
    blank: Blank,
) -> Result<(), Fail>
    requires name { blank.name ≡ L.name }
    requires parts { blank.parts ≡ L.parts }
    requires some { 0 < blank.parts }
{
    let mut reads = Steps::<L>::new(blank);
    let mut blocks = laid_out(alloc, disk)?;
    last_of_each(rt, alloc, &mut blocks, disk, &mut reads)
}

#[test]
fn the_last_one_is_found_over_three_levels(rt: HostRuntime) -> Result<(), Fail> {
    let alloc = rt.alloc();
    last_of_three::<MemDisk, Brand>(&rt, alloc, &mut MemDisk::new(alloc), Blank::new(1))
}

fn range_of_three<D: Disk, L: Ledger>(
    rt: &impl Abort,
    alloc: Global,
    disk: &mut D,
    blank: Blank,
) -> Result<(), Fail>
    requires name { blank.name ≡ L.name }
    requires parts { blank.parts ≡ L.parts }
    requires some { 0 < blank.parts }
{
    let mut reads = Steps::<L>::new(blank);
    let mut blocks = laid_out(alloc, disk)?;
    let (from, to) = (key(29, 7), key(31, 3));
    let found = tree().range::<FilePart, D, L>(alloc, &mut blocks, disk, from, to, &mut reads)?;
    let wanted = [(29, 7), (30, 3), (30, 7), (31, 3)];
    assert!(rt; found.len() == 4);
    for (item, (object, offset)) in found.as_slice().iter().zip(wanted) {
        assert!(rt; is_item(item, object, offset), "{object} {offset}");
    }
    Ok(())
}

#[test]
fn a_range_is_read_over_three_levels(rt: HostRuntime) -> Result<(), Fail> {
    let alloc = rt.alloc();
    range_of_three::<MemDisk, Brand>(&rt, alloc, &mut MemDisk::new(alloc), Blank::new(1))
}
