// What one item of a subvolume's tree tells.
ghost use Rattle.std.specs.Prelude.{◌≡◌};
ghost use Rattle.qg_items.specs.declared.kind.TheConstants.{EXTENT_DATA, INODE_ITEM};
ghost use Rattle.qg_num.specs.declared.fault.BlockFault.TheVariants.{Image};
ghost use Rattle.qg_num.specs.declared.rule.Rule.TheVariants as rule;
ghost use Rattle.qg_tree_items.specs.Keys.{key_with};
ghost use Rattle.qg_inodes.specs.Judged.{AreAdded, IsOwnPiece};

use qg_items::kind::{EXTENT_DATA, INODE_ITEM};
use qg_node::Item;
use qg_num::{BlockFault, Ino, Key, Piece, Pieces, Rule};
use qg_tree_items::piece_of;
use qg_tree_read::Tree;

/// The key of a file's INODE_ITEM (on-disk format, INODE_ITEM).
pub fn inode_key(ino: Ino) -> Key
    ensures { result ≡ key_with ino INODE_ITEM 0 }
{
    Key {
        objectid: ino.value(),
        kind: INODE_ITEM,
        offset: 0,
    }
}

/// The key of the EXTENT_DATA of the piece at a position, in bytes (on-disk format, EXTENT_DATA).
pub fn piece_key(ino: Ino, position: u64) -> Key
    ensures { result ≡ key_with ino EXTENT_DATA position }
{
    Key {
        objectid: ino.value(),
        kind: EXTENT_DATA,
        offset: position,
    }
}

/// The piece of a file that an item tells; none where it is no piece of it. An item that says nothing is answered as
/// `Image`.
pub(crate) fn own_piece(
    tree: &Tree,
    ino: Ino,
    item: &Option<Item>,
) -> Result<Option<Piece>, BlockFault>
    ensures { IsOwnPiece tree.now ino item.now result }
{
    let Some(item) = item else {
        return Ok(None);
    };
    if item.key.objectid != ino.value() || item.key.kind != EXTENT_DATA {
        return Ok(None);
    }
    match piece_of(item) {
        Some(piece) => Ok(Some(piece)),
        None => Err(unread(tree)),
    }
}

/// Puts the pieces that items tell behind others. An item that says nothing is answered as `Image`.
pub(crate) fn add_pieces(tree: &Tree, items: &[Item], pieces: &mut Pieces) -> Result<(), BlockFault>
    ensures { AreAdded tree.now items.now pieces.old pieces.new result }
{
    for item in items {
        let Some(piece) = piece_of(item) else {
            return Err(unread(tree));
        };
        pieces.push(piece)?;
    }
    Ok(())
}

/// What is answered where an item of a file says nothing.
pub(crate) fn unread(tree: &Tree) -> BlockFault
    ensures { result ≡ Image rule.Item tree.now.address }
{
    BlockFault::Image {
        rule: Rule::Item,
        address: tree.root(),
    }
}

/// What is answered where pieces are those of no file.
pub(crate) fn unfit(tree: &Tree) -> BlockFault
    ensures { result ≡ Image rule.File tree.now.address }
{
    BlockFault::Image {
        rule: Rule::File,
        address: tree.root(),
    }
}
