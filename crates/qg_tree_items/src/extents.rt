// What the items of the extent tree say.
ghost use Rattle.std.specs.Prelude.{◌≡◌, ◌==◌, Some, length};
ghost use Rattle.std.specs.Option.{option_map};
ghost use Rattle.qg_image.specs.ItemMeaning.{when, extent_part};
ghost use Rattle.qg_image.specs.ItemReading.{extent_read, data_ref_read, shared_data_ref_read};
ghost use Rattle.qg_image.specs.Types.{KeyedData, SharedData};
ghost use Rattle.qg_image.specs.declared.part.ExtentPart.TheVariants.{DataRecord, NodeRecord, Referenced};

use crate::part::TreePart;
use qg_image::ExtentPart;
use qg_image::items::kind::{
    EXTENT_DATA_REF, EXTENT_ITEM, METADATA_ITEM, SHARED_BLOCK_REF, SHARED_DATA_REF, TREE_BLOCK_REF,
};
use qg_image::items::tree::EXTENT_TREE;
use qg_image::items::{Reference, read_data_ref, read_extent, read_shared_data_ref};
use qg_image::node::Item;
use qg_num::{Address, Generation, RootId};

impl TreePart for ExtentPart {
    ghost use Rattle.qg_image.specs.ItemMeaning.{extent_part};
    ghost use Rattle.qg_image.specs.declared.tree.TreeKind.TheVariants.{Extents};
    ghost use Rattle.qg_tree_items.specs.PartsSaid.{extent_said};

    ghost tree = { Extents };

    ghost meaning = { extent_part };

    fn is_owner(owner: RootId) -> bool {
        owner.value() == EXTENT_TREE
    }

    #[tactic(auto, unfolding(qg_image::specs::Walk::is_item_of))]
    fn read(item: &Item, generation: Generation) -> Option<ExtentPart> {
        // Each part is made anew: the toolchain finds no proof of one that is kept while it is tested.
        match extent_part(item)? {
            ExtentPart::DataRecord {
                address,
                bytes,
                extent,
            } if extent.generation.value() <= generation.value() => Some(ExtentPart::DataRecord {
                address,
                bytes,
                extent,
            }),
            ExtentPart::NodeRecord {
                address,
                level,
                extent,
            } if extent.generation.value() <= generation.value() => Some(ExtentPart::NodeRecord {
                address,
                level,
                extent,
            }),
            ExtentPart::Referenced {
                address,
                reference,
                count,
            } => Some(ExtentPart::Referenced {
                address,
                reference,
                count,
            }),
            _ => None,
        }
    }

    ghost said = { extent_said };
}

fn extent_part(item: &Item) -> Option<ExtentPart>
    ensures { result ≡ extent_part item.now }
{
    let number = item.key.offset;
    match item.key.kind {
        EXTENT_ITEM => data_record(item),
        METADATA_ITEM => node_record(item),
        TREE_BLOCK_REF => block(
            item,
            Reference::KeyedBlock {
                root: RootId::new(number),
            },
        ),
        SHARED_BLOCK_REF => block(
            item,
            Reference::SharedBlock {
                parent: Address::new(number),
            },
        ),
        EXTENT_DATA_REF => keyed_data(item),
        SHARED_DATA_REF => shared_data(item),
        _ => None,
    }
}

fn data_record(item: &Item) -> Option<ExtentPart>
    ensures { result ≡ option_map (DataRecord item.now.key.objectid item.now.key.offset) (extent_read item.now.body) }
{
    Some(ExtentPart::DataRecord {
        address: Address::new(item.key.objectid),
        bytes: item.key.offset,
        extent: read_extent(item.body.as_slice())?,
    })
}

fn node_record(item: &Item) -> Option<ExtentPart>
    ensures { result ≡ option_map (NodeRecord item.now.key.objectid item.now.key.offset) (extent_read item.now.body) }
{
    Some(ExtentPart::NodeRecord {
        address: Address::new(item.key.objectid),
        level: item.key.offset,
        extent: read_extent(item.body.as_slice())?,
    })
}

// A reference to a node: its body is empty, and its count 1.
fn block(item: &Item, reference: Reference) -> Option<ExtentPart>
    ensures { result ≡ when (length item.now.body == 0) (Some (Referenced item.now.key.objectid reference 1)) }
{
    if !item.body.is_empty() {
        return None;
    }
    Some(ExtentPart::Referenced {
        address: Address::new(item.key.objectid),
        reference,
        count: 1,
    })
}

fn keyed_data(item: &Item) -> Option<ExtentPart>
    ensures { result ≡ option_map
        (λ keyed. Referenced item.now.key.objectid (KeyedData keyed.root keyed.objectid keyed.offset) keyed.count)
        (data_ref_read item.now.body) }
{
    let keyed = read_data_ref(item.body.as_slice())?;
    Some(ExtentPart::Referenced {
        address: Address::new(item.key.objectid),
        reference: Reference::KeyedData {
            root: keyed.root,
            ino: keyed.objectid,
            offset: keyed.offset,
        },
        count: keyed.count,
    })
}

fn shared_data(item: &Item) -> Option<ExtentPart>
    ensures { result ≡ option_map
        (λ shared. Referenced item.now.key.objectid (SharedData item.now.key.offset) shared.count)
        (shared_data_ref_read item.now.body) }
{
    let shared = read_shared_data_ref(item.body.as_slice())?;
    Some(ExtentPart::Referenced {
        address: Address::new(item.key.objectid),
        reference: Reference::SharedData {
            parent: Address::new(item.key.offset),
        },
        count: shared.count,
    })
}
