// What an item of the extent tree says.
ghost use Rattle.std.specs.Prelude.{◌≡◌};
ghost use Rattle.qg_num.specs.Fields.{IsBytes};
ghost use Rattle.qg_tree_items.specs.ItemMeaning.{extent_part};

use qg_node::Item;
use qg_num::Generation;
use qg_walk::tree_items::TreePart;
use qg_walk::tree_items::image::ExtentPart;

/// What an item says, whatever its generation.
pub(crate) fn said(item: &Item) -> Option<ExtentPart>
    ensures { result ≡ extent_part item.now }
{
    are_bytes(item.body.as_slice());
    ExtentPart::read(item, Generation::new(u64::MAX))
}

// What a slice of bytes has.
fn are_bytes(bytes: &[u8])
    ensures { IsBytes bytes.now }
{
    let _count = bytes.len();
}
