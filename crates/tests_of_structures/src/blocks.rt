// What no clause says: that calls succeed, in which order clean nodes go, and what is answered over a disk that changes
// by itself. Which rule is broken was worked out by hand.
ghost use Rattle.std.specs.Prelude.{◌≡◌, ◌<◌, IfOk, IsSome, IsTrue, List, OnOk, Some};
ghost use Rattle.qg_device.specs.History.{History};
ghost use Rattle.qg_node.specs.declared.node.Node.{Node as NodeValue};
ghost use Rattle.qg_blocks.specs.NodesInMemory.{nothing_fresh, slots_of};
ghost use Rattle.qg_blocks.specs.NodesFound.{IsBacked, IsNodeAt, fresh_at};
ghost use Rattle.qg_blocks.specs.Writing.{HasWritten, IsPlaced};

mod flip;

use flip::FlipDisk;
use qg_blocks::{Blocks, has_slot};
use qg_disk::{Disk, MemDisk};
use qg_node::{Header, Items, Node, write_node};
use qg_num::{Address, BlockFault, Generation, NoMemory, RootId, Rule, Steps};
use qg_super::Sizes;
use std::alloc::Global;
use std::marker::Brand;
use std::process::Abort;
use std::sync::ledger::{Blank, Ledger};
use std::test::Fail;

// The first four slots of 4096 bytes, and where they end.
const FIRST: u64 = 1048576;

const SECOND: u64 = 1052672;

const THIRD: u64 = 1056768;

const FOURTH: u64 = 1060864;

const END: u64 = 1064960;

// 64 slots of 4096 bytes.
fn sizes() -> Sizes
    ensures { result ≡ slots_of 4096 64 }
{
    Sizes {
        nodesize: 4096,
        slots: 64,
        sectors: 16,
    }
}

fn header(address: u64, generation: u64) -> Header {
    Header {
        address: Address::new(address),
        generation: Generation::new(generation),
        owner: RootId::new(5),
        level: 0,
    }
}

fn leaf(alloc: Global, address: u64, generation: u64) -> Node {
    Node::Leaf {
        header: header(address, generation),
        items: Items::new(alloc),
    }
}

// No node of them, with room for one clean one.
#[tactic(auto, unfolding(qg_super::specs::Places::is_served))]
fn no_nodes(alloc: Global) -> Result<Blocks, NoMemory>
    ensures draft { IfOk result (λ blocks. blocks.draft ≡ nothing_fresh (slots_of 4096 64)) }
    ensures backed { IfOk result (λ blocks. (history : History) → IsBacked blocks history) }
{
    Blocks::with_bound(alloc, 4096, 64, 1)
}

// Whether a node can be written at an address of a disk of so many bytes.
#[tactic(auto, unfolding(qg_super::specs::Places::is_served))]
fn is_placed(node: &Node, bytes: u64, address: Address) -> bool
    ensures { IsTrue result → IsPlaced (slots_of 4096 64) bytes address node.now }
{
    node.has_text(4096) && node.header().address == address && has_slot(&sizes(), bytes, address)
}

// Writes a fresh node.
fn write_one<D: Disk>(blocks: &Blocks, disk: &mut D, address: Address) -> Result<(), Fail>
    requires { IsSome (fresh_at blocks.now.draft address) }
    ensures kept { OnOk result ((node : NodeValue) → fresh_at blocks.now.draft address ≡ Some node
        → IsNodeAt 4096 address node) }
    ensures written { OnOk result ((node : NodeValue) → fresh_at blocks.now.draft address ≡ Some node
        → HasWritten (slots_of 4096 64) (D.history disk.old) (D.history disk.new) address node) }
{
    let node = blocks.peek(address);
    if !is_placed(node, disk.len(), address) {
        return Err(Fail::from("a node has no place"));
    }
    let mut bytes = [0; 4096];
    write_node(node, &mut bytes);
    disk.write_at(address.value(), &bytes)?;
    Ok(())
}

// Writes the fresh nodes, as a commit does.
fn write_all<D: Disk>(blocks: &mut Blocks, disk: &mut D) -> Result<(), Fail>
    requires sizes { blocks.old.draft.sizes ≡ slots_of 4096 64 }
    requires backed { IsBacked blocks.old (D.history disk.old) }
    ensures backed { OnOk result (IsBacked blocks.new (D.history disk.new)) }
{
    let addresses = blocks.dirty()?;
    for address in addresses.as_slice() {
        write_one(blocks, disk, *address)?;
    }
    blocks.written(disk);
    Ok(())
}

// A disk of four slots with leaves of generation 1 in the first three, the last of which is in memory.
fn laid_out<D: Disk>(alloc: Global, disk: &mut D) -> Result<Blocks, Fail>
    ensures { IfOk result (λ blocks. IsBacked blocks (D.history disk.new)) }
{
    disk.write_at(END - 1, &[0])?;
    let mut blocks = three_fresh(alloc)?;
    write_all(&mut blocks, disk)?;
    Ok(blocks)
}

// Three fresh leaves of generation 1.
fn three_fresh(alloc: Global) -> Result<Blocks, NoMemory>
    ensures sizes { IfOk result (λ blocks. blocks.draft.sizes ≡ slots_of 4096 64) }
    ensures backed { IfOk result (λ blocks. (history : History) → IsBacked blocks history) }
{
    let mut blocks = no_nodes(alloc)?;
    blocks.put_fresh(leaf(alloc, THIRD, 1))?;
    blocks.put_fresh(leaf(alloc, FIRST, 1))?;
    blocks.put_fresh(leaf(alloc, SECOND, 1))?;
    Ok(blocks)
}

// The generation of the node at an address.
fn generation_at<D: Disk, L: Ledger>(
    blocks: &mut Blocks,
    disk: &mut D,
    address: u64,
    reads: &mut Steps<L>,
) -> Result<u64, BlockFault>
    requires { IsBacked blocks.old (D.history disk.old) }
    ensures { IsBacked blocks.new (D.history disk.new) }
{
    let address = Address::new(address);
    blocks.load(disk, address, reads)?;
    Ok(blocks.peek(address).header().generation.value())
}

// Whether a leaf of generation 1 was found at an address, or this rule is broken there.
fn is_right(found: Result<u64, BlockFault>, address: u64, rule: Option<Rule>) -> bool {
    match rule {
        None => found == Ok(1),
        Some(rule) => {
            let address = Address::new(address);
            found == Err(BlockFault::Image { rule, address })
        }
    }
}

// Three leaves, one after the other, and the first again.
fn visit_three<L: Ledger>(rt: &impl Abort, alloc: Global, blank: Blank) -> Result<(), Fail>
    requires name { blank.name ≡ L.name }
    requires parts { blank.parts ≡ L.parts }
    requires some { 0 < blank.parts }
{
    let mut reads = Steps::<L>::new(blank);
    let mut disk = MemDisk::new(alloc);
    let mut blocks = laid_out(alloc, &mut disk)?;
    let first = generation_at(&mut blocks, &mut disk, FIRST, &mut reads);
    let second = generation_at(&mut blocks, &mut disk, SECOND, &mut reads);
    let third = generation_at(&mut blocks, &mut disk, THIRD, &mut reads);
    let again = generation_at(&mut blocks, &mut disk, FIRST, &mut reads);
    assert!(rt; matches!((first, second, third, again), (Ok(1), Ok(1), Ok(1), Ok(1))));
    assert!(rt; blocks.cached() == 1);
    Ok(())
}

#[test]
fn three_nodes_over_a_bound_of_one(rt: HostRuntime) -> Result<(), Fail> {
    visit_three::<Brand>(&rt, rt.alloc(), Blank::new(1))
}

// What is answered at an address.
fn answer_at<L: Ledger>(
    alloc: Global,
    address: u64,
    blank: Blank,
) -> Result<Result<u64, BlockFault>, Fail>
    requires name { blank.name ≡ L.name }
    requires parts { blank.parts ≡ L.parts }
    requires some { 0 < blank.parts }
{
    let mut reads = Steps::<L>::new(blank);
    let mut disk = MemDisk::new(alloc);
    let mut blocks = laid_out(alloc, &mut disk)?;
    Ok(generation_at(&mut blocks, &mut disk, address, &mut reads))
}

#[test]
fn addresses_without_a_node(rt: HostRuntime) -> Result<(), Fail> {
    let cases = [
        (FOURTH, Rule::Csum),
        (END, Rule::Slot),
        (FIRST + 1, Rule::Slot),
        (FIRST - 4096, Rule::Slot),
        (FIRST + 64 * 4096, Rule::Slot),
    ];
    for (address, rule) in cases {
        let found = answer_at::<Brand>(rt.alloc(), address, Blank::new(1))?;
        assert!(rt; is_right(found, address, Some(rule)), "at {address}");
    }
    Ok(())
}

// Another node in the place of a fresh one.
fn set(rt: &impl Abort, blocks: &mut Blocks, node: Node)
    ensures { (history : History) → IsBacked blocks.old history → IsBacked blocks.new history }
{
    let address = node.header().address;
    assert!(rt; blocks.is_fresh(address));
    *blocks.get_mut(address) = node;
}

fn edit_first<L: Ledger>(rt: &impl Abort, alloc: Global, blank: Blank) -> Result<(), Fail>
    requires name { blank.name ≡ L.name }
    requires parts { blank.parts ≡ L.parts }
    requires some { 0 < blank.parts }
{
    let mut reads = Steps::<L>::new(blank);
    let mut disk = MemDisk::new(alloc);
    let mut blocks = laid_out(alloc, &mut disk)?;
    blocks.put_fresh(leaf(alloc, FIRST, 2))?;
    let copied = generation_at(&mut blocks, &mut disk, FIRST, &mut reads);
    set(rt, &mut blocks, leaf(alloc, FIRST, 3));
    let edited = generation_at(&mut blocks, &mut disk, FIRST, &mut reads);
    blocks.forget(Address::new(FIRST));
    let left = generation_at(&mut blocks, &mut disk, FIRST, &mut reads);
    assert!(rt; matches!((copied, edited, left), (Ok(2), Ok(3), Ok(1))));
    Ok(())
}

#[test]
fn a_fresh_node_is_told_until_it_is_forgotten(rt: HostRuntime) -> Result<(), Fail> {
    edit_first::<Brand>(&rt, rt.alloc(), Blank::new(1))
}

// The fifth call of a disk is the first read, and fails.
fn read_twice<L: Ledger>(rt: &impl Abort, alloc: Global, blank: Blank) -> Result<(), Fail>
    requires name { blank.name ≡ L.name }
    requires parts { blank.parts ≡ L.parts }
    requires some { 0 < blank.parts }
{
    let mut reads = Steps::<L>::new(blank);
    let mut disk = MemDisk::new(alloc);
    disk.fail_at(vec![in alloc; 5]?);
    let mut blocks = laid_out(alloc, &mut disk)?;
    let failed = generation_at(&mut blocks, &mut disk, FIRST, &mut reads);
    let again = generation_at(&mut blocks, &mut disk, FIRST, &mut reads);
    assert!(rt; matches!((failed, again), (Err(BlockFault::Disk), Ok(1))));
    Ok(())
}

#[test]
fn a_read_that_failed_is_done_again(rt: HostRuntime) -> Result<(), Fail> {
    read_twice::<Brand>(&rt, rt.alloc(), Blank::new(1))
}

// What is answered at the first leaf, again there, at the second leaf and at the first, where a bit of the first leaf
// is another from one read on. The second answer takes no read where the first was a node.
fn flipped_answers<L: Ledger>(
    alloc: Global,
    from: u64,
    blank: Blank,
) -> Result<[Result<u64, BlockFault>; 4], Fail>
    requires name { blank.name ≡ L.name }
    requires parts { blank.parts ≡ L.parts }
    requires some { 0 < blank.parts }
{
    let mut reads = Steps::<L>::new(blank);
    let mut disk = FlipDisk::new(alloc, FIRST + 200, from);
    let mut blocks = laid_out(alloc, &mut disk)?;
    Ok([
        generation_at(&mut blocks, &mut disk, FIRST, &mut reads),
        generation_at(&mut blocks, &mut disk, FIRST, &mut reads),
        generation_at(&mut blocks, &mut disk, SECOND, &mut reads),
        generation_at(&mut blocks, &mut disk, FIRST, &mut reads),
    ])
}

#[test]
fn a_changed_byte_is_found_or_not_read(rt: HostRuntime) -> Result<(), Fail> {
    let csum = Some(Rule::Csum);
    let cases = [
        (1, [csum, csum, None, csum]),
        (2, [None, None, None, csum]),
        (3, [None, None, None, csum]),
        (4, [None, None, None, None]),
    ];
    for (from, [first, again, second, last]) in cases {
        let found = flipped_answers::<Brand>(rt.alloc(), from, Blank::new(1))?;
        assert!(rt; is_right(found[0], FIRST, first), "from {from}");
        assert!(rt; is_right(found[1], FIRST, again), "from {from}");
        assert!(rt; is_right(found[2], SECOND, second), "from {from}");
        assert!(rt; is_right(found[3], FIRST, last), "from {from}");
    }
    Ok(())
}

fn has_dirty(blocks: &Blocks, addresses: &[u64]) -> Result<bool, NoMemory> {
    let dirty = blocks.dirty()?;
    let dirty = dirty.as_slice();
    Ok(
        dirty.len() == addresses.len()
            && dirty
                .iter()
                .zip(addresses)
                .all(|(address, wanted)| address.value() == *wanted),
    )
}

#[test]
fn fresh_nodes_are_dirty(rt: HostRuntime) -> Result<(), Fail> {
    let blocks = three_fresh(rt.alloc())?;
    assert!(rt; has_dirty(&blocks, &[FIRST, SECOND, THIRD])?);
    let blocks = empty(rt.alloc())?;
    assert!(rt; has_dirty(&blocks, &[])?);
    assert!(rt; blocks.nodesize() == 16384 && blocks.cached() == 0);
    Ok(())
}

#[tactic(auto, unfolding(qg_super::specs::Places::is_served))]
fn empty(alloc: Global) -> Result<Blocks, NoMemory> {
    Blocks::new(alloc, 16384, 64)
}
