// The items of a subvolume's tree.
ghost use Rattle.std.specs.Prelude.{◌≡◌, ◌≤◌, ◌<◌, ◌^◌, ℕ, ◌∷◌, ◌++◌, [], All, IfOk, OnOk, IsTrue, length, map};
ghost use Rattle.std.specs.List.{flat_map, list_all, sum_by};
ghost use Rattle.qg_node.specs.Fits.{ItemFits};
ghost use Rattle.qg_node.specs.Nodes.{is_ascending, items_bytes};
ghost use Rattle.qg_image.specs.FilesOf.{pieces_bytes, AreItemsOfFiles};
ghost use Rattle.qg_image.specs.Need.{file_bytes};
ghost use Rattle.qg_image.specs.Walk.{is_item_of};
ghost use Rattle.qg_image.specs.declared.tree.TreeKind.TheVariants.{Files};
ghost use Rattle.qg_tree_items.specs.Writable.{AreWritableFiles, IsFileBy};
ghost use Rattle.qg_root_items.specs.Written.{item_of_inode, item_of_piece, items_of_file};

use qg_image::File;
use qg_items::kind::{EXTENT_DATA, INODE_ITEM};
use qg_items::{
    EXTENT_DATA_BYTES, ExtentData, INODE_ITEM_BYTES, InodeItem, write_extent_data, write_inode,
};
use qg_node::{Item, Items};
use qg_num::{Ino, NoMemory, Piece};
use std::alloc::{AllocError, Global};

/// The items of a subvolume's tree with these files: an INODE_ITEM for each, and an EXTENT_DATA for each of its pieces
/// (on-disk format, INODE_ITEM and EXTENT_DATA).
pub fn file_items(alloc: Global, files: &[(Ino, File)]) -> Result<Items, NoMemory>
    requires { AreWritableFiles files.now }
    ensures told { IfOk result (λ items. (generation : ℕ) → generation < 2 ^ 64 → All (IsFileBy generation) files.now
        → AreItemsOfFiles generation items files.now) }
    ensures allowed { IfOk result (λ items. (generation : ℕ) → generation < 2 ^ 64 → All (IsFileBy generation) files.now
        → IsTrue (list_all (is_item_of Files generation) items)) }
    ensures ascending { IfOk result (λ items. IsTrue (is_ascending (map (λ item. item.key) items))) }
    ensures short { IfOk result (λ items. All (λ item. length item.body ≤ 1024) items) }
    ensures fit { IfOk result (λ items. All ItemFits items) }
    ensures weight { IfOk result (λ items. items_bytes items ≡ sum_by (λ file. file_bytes file.1) files.now) }
{
    Ok(items_of_files(alloc, files)?)
}

fn items_of_files(alloc: Global, files: &[(Ino, File)]) -> Result<Items, AllocError>
    requires { AreWritableFiles files.now }
    ensures { IfOk result (λ items. items ≡ flat_map items_of_file files.now) }
{
    let mut items = Items::new(alloc);
    for file in files {
        put_file(alloc, &mut items, file.0, &file.1)?;
    }
    Ok(items)
}

// Puts a file's items at the end.
fn put_file(alloc: Global, items: &mut Items, ino: Ino, file: &File) -> Result<(), AllocError>
    requires { pieces_bytes file.now.pieces < 2 ^ 64 }
    ensures { OnOk result (items.new ≡ items.old ++ items_of_file (ino, file.now)) }
{
    items.push(item_of_inode(alloc, ino, file)?)?;
    for piece in file.pieces.as_slice() {
        items.push(item_of_piece(alloc, ino, piece)?)?;
    }
    Ok(())
}

// A file's INODE_ITEM.
fn item_of_inode(alloc: Global, ino: Ino, file: &File) -> Result<Item, AllocError>
    requires { pieces_bytes file.now.pieces < 2 ^ 64 }
    ensures { IfOk result (λ item. item ≡ item_of_inode ino file.now) }
{
    let inode = InodeItem {
        generation: file.generation,
        transid: file.transid,
        size: file.size,
        nbytes: pieces_bytes(file.pieces.as_slice()),
    };
    let mut bytes = [0; INODE_ITEM_BYTES];
    write_inode(&inode, &mut bytes);
    Item::new(alloc, ino.value(), INODE_ITEM, 0, &bytes)
}

// The bytes of pieces.
fn pieces_bytes(pieces: &[Piece]) -> u64
    requires { pieces_bytes pieces.now < 2 ^ 64 }
    ensures { result ≡ pieces_bytes pieces.now }
{
    pieces.iter().map(|piece| piece.len).sum()
}

// A piece's EXTENT_DATA.
fn item_of_piece(alloc: Global, ino: Ino, piece: &Piece) -> Result<Item, AllocError>
    ensures { IfOk result (λ item. item ≡ item_of_piece ino piece.now) }
{
    let told = ExtentData {
        generation: piece.stamp,
        ram_bytes: piece.extent_bytes,
        disk_bytenr: piece.extent,
        disk_num_bytes: piece.extent_bytes,
        offset: piece.offset,
        num_bytes: piece.len,
    };
    let mut bytes = [0; EXTENT_DATA_BYTES];
    write_extent_data(&told, &mut bytes);
    Item::new(alloc, ino.value(), EXTENT_DATA, piece.position, &bytes)
}
