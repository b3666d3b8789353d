// What the items of a subvolume's tree say.
ghost use Rattle.std.specs.Prelude.{◌≡◌};
ghost use Rattle.std.specs.Option.{option_map, option_and_then};
ghost use Rattle.qg_image.specs.ItemMeaning.{when, is_keyed, piece_told, file_part, file_part_stamps};
ghost use Rattle.qg_image.specs.ItemReading.{inode_read, extent_data_read};
ghost use Rattle.qg_image.specs.Types.{INODE_ITEM};
ghost use Rattle.qg_image.specs.declared.part.FilePart.TheVariants.{Inode, PieceOf};
ghost use Rattle.qg_image.specs.Walk.{are_by};

use crate::part::TreePart;
use crate::piece::piece_of;
use crate::root::is_subvolume_number;
use qg_image::FilePart;
use qg_image::items::kind::{EXTENT_DATA, INODE_ITEM};
use qg_image::items::read_inode;
use qg_image::node::Item;
use qg_num::{Generation, Ino, RootId};

impl TreePart for FilePart {
    ghost use Rattle.qg_image.specs.ItemMeaning.{file_part};
    ghost use Rattle.qg_image.specs.declared.tree.TreeKind.TheVariants.{Files};
    ghost use Rattle.qg_tree_items.specs.PartsSaid.{file_said};

    ghost tree = { Files };

    ghost meaning = { file_part };

    fn is_owner(owner: RootId) -> bool {
        is_subvolume_number(owner.value())
    }

    #[tactic(auto, unfolding(qg_image::specs::Walk::is_item_of, qg_image::specs::FilesOf::is_file_item))]
    fn read(item: &Item, generation: Generation) -> Option<FilePart> {
        file_part(item).filter(|part| stamps_are_by(part, generation))
    }

    ghost said = { file_said };
}

fn file_part(item: &Item) -> Option<FilePart>
    ensures { result ≡ file_part item.now }
{
    match item.key.kind {
        INODE_ITEM => inode_part(item),
        EXTENT_DATA => piece_part(item),
        _ => None,
    }
}

fn inode_part(item: &Item) -> Option<FilePart>
    ensures { result ≡ when (is_keyed item.now.key.objectid INODE_ITEM 0 item.now)
        (option_map (Inode item.now.key.objectid) (inode_read item.now.body)) }
{
    if item.key.kind != INODE_ITEM || item.key.offset != 0 {
        return None;
    }
    Some(FilePart::Inode {
        ino: Ino::new(item.key.objectid),
        inode: read_inode(item.body.as_slice())?,
    })
}

// The piece that a body tells, with its file.
fn piece_part(item: &Item) -> Option<FilePart>
    ensures { result ≡ option_map (PieceOf item.now.key.objectid)
        (option_and_then (piece_told item.now.key.offset) (extent_data_read item.now.body)) }
{
    Some(FilePart::PieceOf {
        ino: Ino::new(item.key.objectid),
        piece: piece_of(item)?,
    })
}

// Whether no generation that it tells is past this one.
fn stamps_are_by(part: &FilePart, generation: Generation) -> bool
    ensures { result ≡ are_by generation (file_part_stamps part.now) }
{
    match part {
        FilePart::Inode { inode, .. } => {
            inode.generation.value() <= generation.value()
                && inode.transid.value() <= generation.value()
        }
        FilePart::PieceOf { piece, .. } => piece.stamp.value() <= generation.value(),
    }
}
