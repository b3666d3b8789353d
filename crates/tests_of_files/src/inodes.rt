// What no clause says: that calls succeed with ample memory, and what is answered of items that are those of no file.
// What is expected was worked out by hand.
ghost use Rattle.std.specs.Prelude.{◌≡◌, ◌<◌, IfOk};
ghost use Rattle.qg_tree_read.specs.Way.{IsReadable};

use qg_blocks::Blocks;
use qg_disk::{Disk, MemDisk};
use qg_image::File;
use qg_inodes::{file_of, inode_of, pieces_meeting};
use qg_items::kind::{EXTENT_DATA, INODE_ITEM};
use qg_items::{
    EXTENT_DATA_BYTES, ExtentData, INODE_ITEM_BYTES, InodeItem, write_extent_data, write_inode,
};
use qg_node::{Body, Header, Item, Items, Node, write_node};
use qg_num::{
    Address, BlockFault, Generation, Ino, Key, NoMemory, Piece, Pieces, RootId, Rule, Steps,
};
use qg_tree_read::Tree;
use std::alloc::Global;
use std::marker::Brand;
use std::process::Abort;
use std::sync::ledger::{Blank, Ledger};
use std::test::Fail;

// The tree is one leaf of 4096 bytes, in the first slot.
const ROOT: u64 = 1048576;

fn tree() -> Tree {
    Tree::at(Address::new(ROOT), 0, RootId::new(5), Generation::new(4))
}

fn item(alloc: Global, ino: u64, kind: u8, offset: u64, body: &[u8]) -> Result<Item, NoMemory> {
    Ok(Item {
        key: Key {
            objectid: ino,
            kind,
            offset,
        },
        body: Body::from_slice(alloc, body)?,
    })
}

// The INODE_ITEM of a file of so many bytes, of which so many are in pieces.
fn inode(alloc: Global, ino: u64, size: u64, nbytes: u64) -> Result<Item, NoMemory> {
    let mut body = [0; INODE_ITEM_BYTES];
    let told = InodeItem {
        generation: Generation::new(2),
        transid: Generation::new(3),
        size,
        nbytes,
    };
    write_inode(&told, &mut body);
    item(alloc, ino, INODE_ITEM, 0, &body)
}

// A piece of so many bytes at a position, which names the first bytes of an extent.
fn piece(alloc: Global, ino: u64, position: u64, len: u64) -> Result<Item, NoMemory> {
    let mut body = [0; EXTENT_DATA_BYTES];
    let told = ExtentData {
        generation: Generation::new(3),
        ram_bytes: 16384,
        disk_bytenr: Address::new(67174400),
        disk_num_bytes: 16384,
        offset: 0,
        num_bytes: len,
    };
    write_extent_data(&told, &mut body);
    item(alloc, ino, EXTENT_DATA, position, &body)
}

// A file with three pieces and a hole, an empty one, one whose piece says nothing, and one whose pieces overlap.
fn items(alloc: Global) -> Result<Items, NoMemory> {
    let mut items = Items::new(alloc);
    items.push(inode(alloc, 257, 32768, 20480)?)?;
    items.push(piece(alloc, 257, 0, 8192)?)?;
    items.push(piece(alloc, 257, 16384, 4096)?)?;
    items.push(piece(alloc, 257, 20480, 8192)?)?;
    items.push(inode(alloc, 258, 0, 0)?)?;
    items.push(inode(alloc, 260, 4096, 4096)?)?;
    items.push(item(alloc, 260, EXTENT_DATA, 0, &[])?)?;
    items.push(inode(alloc, 261, 12288, 12288)?)?;
    items.push(piece(alloc, 261, 0, 8192)?)?;
    items.push(piece(alloc, 261, 4096, 4096)?)?;
    Ok(items)
}

// Writes the tree, and gives the nodes of the disk with room for one in memory.
#[tactic(auto, unfolding(qg_super::specs::Places::is_served))]
fn laid_out<D: Disk>(alloc: Global, disk: &mut D) -> Result<Blocks, Fail>
    ensures { IfOk result (λ blocks. IsReadable blocks (D.history disk.new) (D.size disk.new)) }
{
    let leaf = Node::Leaf {
        header: Header {
            address: Address::new(ROOT),
            generation: Generation::new(3),
            owner: RootId::new(5),
            level: 0,
        },
        items: items(alloc)?,
    };
    if !leaf.has_text(4096) {
        return Err(Fail::from("the leaf has no text"));
    }
    let mut bytes = [0; 4096];
    write_node(&leaf, &mut bytes);
    disk.write_at(ROOT, &bytes)?;
    Ok(Blocks::with_bound(alloc, 4096, 128, 1)?)
}

// The size of a file; none where there is none.
fn size_of<D: Disk, L: Ledger>(
    alloc: Global,
    blocks: &mut Blocks,
    disk: &mut D,
    ino: u64,
    reads: &mut Steps<L>,
) -> Result<Option<u64>, BlockFault>
    requires { IsReadable blocks.old (D.history disk.old) (D.size disk.old) }
    ensures { IsReadable blocks.new (D.history disk.new) (D.size disk.new) }
{
    let found = inode_of(&tree(), alloc, blocks, disk, Ino::new(ino), reads)?;
    Ok(found.map(|inode| inode.size))
}

fn read_inodes<D: Disk, L: Ledger>(
    rt: &impl Abort,
    alloc: Global,
    blocks: &mut Blocks,
    disk: &mut D,
    reads: &mut Steps<L>,
) -> Result<(), Fail>
    requires { IsReadable blocks.old (D.history disk.old) (D.size disk.old) }
    ensures { IsReadable blocks.new (D.history disk.new) (D.size disk.new) }
{
    assert!(rt; size_of(alloc, blocks, disk, 257, reads)? == Some(32768));
    assert!(rt; size_of(alloc, blocks, disk, 258, reads)? == Some(0));
    assert!(rt; size_of(alloc, blocks, disk, 259, reads)? == None);
    Ok(())
}

// Whether pieces are those at these positions, and no others.
fn are_at(pieces: &[Piece], wanted: &[u64]) -> bool {
    pieces.len() == wanted.len()
        && pieces
            .iter()
            .zip(wanted)
            .all(|(piece, position)| piece.position == *position)
}

// Whether the pieces of the first file that meet a range are those at these positions.
fn meets<D: Disk, L: Ledger>(
    alloc: Global,
    blocks: &mut Blocks,
    disk: &mut D,
    from: u64,
    to: u64,
    reads: &mut Steps<L>,
    wanted: &[u64],
) -> Result<bool, BlockFault>
    requires { IsReadable blocks.old (D.history disk.old) (D.size disk.old) }
    ensures { IsReadable blocks.new (D.history disk.new) (D.size disk.new) }
{
    let ino = Ino::new(257);
    let found = pieces_meeting(&tree(), alloc, blocks, disk, ino, from, to, reads)?;
    Ok(are_at(found.as_slice(), wanted))
}

fn read_pieces<D: Disk, L: Ledger>(
    rt: &impl Abort,
    alloc: Global,
    blocks: &mut Blocks,
    disk: &mut D,
    reads: &mut Steps<L>,
) -> Result<(), Fail>
    requires { IsReadable blocks.old (D.history disk.old) (D.size disk.old) }
    ensures { IsReadable blocks.new (D.history disk.new) (D.size disk.new) }
{
    assert!(rt; meets(alloc, blocks, disk, 8191, 16384, reads, &[0])?);
    assert!(rt; meets(alloc, blocks, disk, 8192, 16384, reads, &[])?);
    assert!(rt; meets(alloc, blocks, disk, 8192, 16385, reads, &[16384])?);
    assert!(rt; meets(alloc, blocks, disk, 4096, 20481, reads, &[0, 16384, 20480])?);
    Ok(())
}

fn is_whole(file: &File) -> bool {
    file.size == 32768
        && file.generation == Generation::new(2)
        && file.transid == Generation::new(3)
        && are_at(file.pieces.as_slice(), &[0, 16384, 20480])
}

fn read_files<D: Disk, L: Ledger>(
    rt: &impl Abort,
    alloc: Global,
    blocks: &mut Blocks,
    disk: &mut D,
    reads: &mut Steps<L>,
) -> Result<(), Fail>
    requires { IsReadable blocks.old (D.history disk.old) (D.size disk.old) }
{
    let whole = file_of(&tree(), alloc, blocks, disk, Ino::new(257), reads);
    assert!(rt; matches!(&whole, Ok(Some(file)) if is_whole(file)));
    let none = file_of(&tree(), alloc, blocks, disk, Ino::new(259), reads);
    assert!(rt; matches!(&none, Ok(None)));
    let unread = file_of(&tree(), alloc, blocks, disk, Ino::new(260), reads);
    assert!(rt;
        matches!(
            &unread,
            Err(BlockFault::Image {
                rule: Rule::Item,
                ..
            })
        )
    );
    let unfit = file_of(&tree(), alloc, blocks, disk, Ino::new(261), reads);
    assert!(rt;
        matches!(
            &unfit,
            Err(BlockFault::Image {
                rule: Rule::File,
                ..
            })
        )
    );
    Ok(())
}

fn read_all<D: Disk, L: Ledger>(
    rt: &impl Abort,
    alloc: Global,
    disk: &mut D,
    blank: Blank,
) -> Result<(), Fail>
    requires name { blank.name ≡ L.name }
    requires parts { blank.parts ≡ L.parts }
    requires some { 0 < blank.parts }
{
    let mut reads = Steps::<L>::new(blank);
    let mut blocks = laid_out(alloc, disk)?;
    read_inodes(rt, alloc, &mut blocks, disk, &mut reads)?;
    read_pieces(rt, alloc, &mut blocks, disk, &mut reads)?;
    read_files(rt, alloc, &mut blocks, disk, &mut reads)
}

#[test]
fn files_are_read_from_a_tree(rt: HostRuntime) -> Result<(), Fail> {
    let alloc = rt.alloc();
    read_all::<MemDisk, Brand>(&rt, alloc, &mut MemDisk::new(alloc), Blank::new(1))
}
