// What no clause says: that calls succeed with ample memory, and that the book of a tree which shares no node gives
// back slots. Addresses and counts were worked out by hand.
ghost use Rattle.std.specs.Prelude.{◌≡◌, ◌<◌, ℕ, List, IfOk};
ghost use Rattle.qg_device.specs.History.{History};
ghost use Rattle.qg_blocks.specs.NodesFound.{IsBacked};
ghost use Rattle.qg_node_alloc.specs.Land.{IsDrafted};

use qg_disk::{Disk, MemDisk};
use qg_node::{Header, Items, Node, write_node};
use qg_node_alloc::{Ground, SlotBook, cow_node, leave_node, make_node};
use qg_num::{Address, Generation, RootId, Steps};
use qg_super::Sizes;
use std::alloc::Global;
use std::marker::Brand;
use std::process::Abort;
use std::sync::ledger::{Blank, Ledger};
use std::test::Fail;

// The first three slots of 4096 bytes.
const FIRST: u64 = 1048576;

const SECOND: u64 = 1052672;

const THIRD: u64 = 1056768;

fn leaf(alloc: Global, address: u64, generation: u64) -> Node {
    Node::Leaf {
        header: Header {
            address: Address::new(address),
            generation: Generation::new(generation),
            owner: RootId::new(5),
            level: 0,
        },
        items: Items::new(alloc),
    }
}

// Writes a leaf of generation 1 into the first slot.
fn write_first<D: Disk>(alloc: Global, disk: &mut D) -> Result<(), Fail> {
    let node = leaf(alloc, FIRST, 1);
    if !node.has_text(4096) {
        return Err(Fail::from("a leaf has no text"));
    }
    let mut bytes = [0; 4096];
    write_node(&node, &mut bytes);
    disk.write_at(FIRST, &bytes)?;
    Ok(())
}

// 64 slots of 4096 bytes, of which the present state and the last commit hold the first.
#[tactic(auto, unfolding(qg_super::specs::Places::is_served))]
fn land(alloc: Global) -> Result<Ground, Fail>
    ensures size { IfOk result (λ land. land.space.sizes.nodesize ≡ 4096) }
    ensures backed { IfOk result (λ land. (history : History) → IsBacked land.blocks history) }
    ensures drafted { IfOk result (λ land. (generation : ℕ) → IsDrafted land generation) }
{
    let mut land = Ground::new(
        alloc,
        Sizes {
            nodesize: 4096,
            slots: 64,
            sectors: 16,
        },
    )?;
    let _first = land.space.take_slot()?;
    land.space.committed();
    Ok(land)
}

// Owns a node as tree 256, by generation 2.
fn own<D: Disk, L: Ledger>(
    alloc: Global,
    land: &mut Ground,
    disk: &mut D,
    book: &mut SlotBook,
    at: Address,
    reads: &mut Steps<L>,
) -> Result<Address, Fail>
    requires backed { IsBacked land.old.blocks (D.history disk.old) }
    requires drafted { IsDrafted land.old 2 }
    ensures backed { IsBacked land.new.blocks (D.history disk.new) }
    ensures drafted { IsDrafted land.new 2 }
{
    if land.space.free_slots() == 0 {
        return Err(Fail::from("no slot is free"));
    }
    let (owner, next) = (RootId::new(256), Generation::new(2));
    Ok(cow_node(alloc, land, disk, book, at, owner, next, reads)?)
}

// The first slot was told once, and is free again but for the last commit.
fn has_moved(land: &Ground, book: &SlotBook) -> bool {
    book.told() == 1 && land.space.free_slots() == 62 && !land.space.has_slot(Address::new(FIRST))
}

// A copied node is edited where it lies from then on, and its own slot is given back, which the last commit still
// holds.
fn own_twice<D: Disk, L: Ledger>(
    rt: &impl Abort,
    alloc: Global,
    disk: &mut D,
    blank: Blank,
) -> Result<(), Fail>
    requires name { blank.name ≡ L.name }
    requires parts { blank.parts ≡ L.parts }
    requires some { 0 < blank.parts }
{
    let mut reads = Steps::<L>::new(blank);
    write_first(alloc, disk)?;
    let mut land = land(alloc)?;
    let mut book = SlotBook::new(&land.space);
    let first = Address::new(FIRST);
    let copy = own(alloc, &mut land, disk, &mut book, first, &mut reads)?;
    let again = own(alloc, &mut land, disk, &mut book, copy, &mut reads)?;
    assert!(rt; copy.value() == SECOND && again.value() == SECOND);
    assert!(rt; has_moved(&land, &book));
    land.space.committed();
    assert!(rt; land.space.free_slots() == 63);
    Ok(())
}

#[test]
fn a_node_is_copied_once(rt: HostRuntime) -> Result<(), Fail> {
    let alloc = rt.alloc();
    own_twice::<MemDisk, Brand>(&rt, alloc, &mut MemDisk::new(alloc), Blank::new(1))
}

fn is_made(land: &Ground, made: Address) -> bool {
    made.value() == SECOND && land.space.free_slots() == 62 && land.blocks.is_fresh(made)
}

fn is_given_back(land: &Ground, book: &SlotBook, made: Address) -> bool {
    land.space.free_slots() == 63 && book.told() == 2 && !land.blocks.is_fresh(made)
}

// A node that was made and is left gives back its slot.
fn make_and_leave<D: Disk, L: Ledger>(
    rt: &impl Abort,
    alloc: Global,
    disk: &mut D,
    blank: Blank,
) -> Result<(), Fail>
    requires name { blank.name ≡ L.name }
    requires parts { blank.parts ≡ L.parts }
    requires some { 0 < blank.parts }
{
    let mut reads = Steps::<L>::new(blank);
    let mut land = land(alloc)?;
    let mut book = SlotBook::new(&land.space);
    let node = leaf(alloc, THIRD, 2);
    if !node.has_text(4096) || land.space.free_slots() == 0 {
        return Err(Fail::from("a leaf has no text, or no place"));
    }
    let made = make_node(&mut land, disk, &mut book, node, &mut reads)?;
    assert!(rt; is_made(&land, made));
    leave_node(&mut land, disk, &mut book, made, &mut reads)?;
    assert!(rt; is_given_back(&land, &book, made));
    Ok(())
}

#[test]
fn a_node_that_is_left_gives_back_its_slot(rt: HostRuntime) -> Result<(), Fail> {
    let alloc = rt.alloc();
    make_and_leave::<MemDisk, Brand>(&rt, alloc, &mut MemDisk::new(alloc), Blank::new(1))
}
