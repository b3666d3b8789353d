// What the items of the root tree say.
ghost use Rattle.std.specs.Prelude.{◌≡◌};
ghost use Rattle.qg_image.specs.ItemMeaning.{is_subvolume_number, root_part, root_part_stamps};
ghost use Rattle.qg_image.specs.Walk.{are_by};

use crate::part::TreePart;
use qg_image::RootPart;
use qg_image::items::kind::ROOT_ITEM;
use qg_image::items::read_root;
use qg_image::items::tree::{EXTENT_TREE, FIRST_FREE, QUOTA_TREE, ROOT_TREE, TOP_LEVEL};
use qg_image::node::Item;
use qg_num::{Generation, RootId};

// The number past those of subvolumes.
const SUBVOLUMES_END: u64 = 1 << 48;

impl TreePart for RootPart {
    ghost use Rattle.qg_image.specs.ItemMeaning.{root_part};
    ghost use Rattle.qg_image.specs.declared.tree.TreeKind.TheVariants.{Roots};
    ghost use Rattle.qg_tree_items.specs.PartsSaid.{root_said};

    ghost tree = { Roots };

    ghost meaning = { root_part };

    fn is_owner(owner: RootId) -> bool {
        owner.value() == ROOT_TREE
    }

    #[tactic(auto, unfolding(qg_image::specs::Walk::is_item_of))]
    fn read(item: &Item, generation: Generation) -> Option<RootPart> {
        root_part(item).filter(|part| stamps_are_by(part, generation))
    }

    ghost said = { root_said };
}

/// Whether a subvolume may have this number (on-disk format, "trees").
#[tactic(auto, unfolding(qg_image::specs::ItemMeaning::is_subvolume_number))]
pub fn is_subvolume_number(number: u64) -> bool
    ensures { result ≡ is_subvolume_number number }
{
    number == TOP_LEVEL || (FIRST_FREE <= number && number < SUBVOLUMES_END)
}

#[tactic(auto, unfolding(qg_image::specs::ItemMeaning::root_part))]
fn root_part(item: &Item) -> Option<RootPart>
    ensures { result ≡ root_part item.now }
{
    let number = item.key.objectid;
    let is_number = number == EXTENT_TREE || number == QUOTA_TREE || is_subvolume_number(number);
    if item.key.kind != ROOT_ITEM || item.key.offset != 0 || !is_number {
        return None;
    }
    let root = read_root(item.body.as_slice())?;
    if root.refs != 1 {
        return None;
    }
    Some((RootId::new(number), root))
}

// Whether no generation that it tells is past this one.
fn stamps_are_by(part: &RootPart, generation: Generation) -> bool
    ensures { result ≡ are_by generation (root_part_stamps part.now) }
{
    let root = &part.1;
    root.generation.value() <= generation.value()
        && root.last_snapshot.value() <= generation.value()
}
