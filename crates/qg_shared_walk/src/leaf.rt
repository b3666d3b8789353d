// The items of a leaf.
ghost use Rattle.std.specs.Prelude.{◌≡◌, ◌-◌, All, length, map, slice_get, IfOk, IsErrOf, IsTrue};
ghost use Rattle.std.specs.List.{list_all};
ghost use Rattle.qg_num.specs.Fields.{IsBytes};
ghost use Rattle.qg_num.specs.declared.rule.Rule.TheVariants as rule;
ghost use Rattle.qg_node.specs.Nodes.{is_ascending};
ghost use Rattle.qg_tree_items.specs.Keys.{file_key};
ghost use Rattle.qg_tree_items.specs.Rows.{Tells};
ghost use Rattle.qg_image.specs.declared.tree.TreeKind.TheVariants.{Files};
ghost use Rattle.qg_image.specs.Failure.{unless};
ghost use Rattle.qg_image.specs.Walk.{is_item_of};
ghost use Rattle.qg_walk.specs.Fault.{FailsAs};
ghost use Rattle.qg_shared_walk.specs.Wells.{IsLeafRead};

use crate::digest::{Below, last_of};
use qg_image::FilePart;
use qg_node::Item;
use qg_num::{Address, Generation, Sequence};
use qg_tree_items::FileRow;
use qg_walk::{OpenFault, add_said};
use std::alloc::Global;

/// Judges the items of the leaf at an address one by one, and keeps what is needed of them.
pub(crate) fn read_leaf(
    alloc: Global,
    generation: Generation,
    address: Address,
    items: &[Item],
) -> Result<Below, OpenFault>
    requires { IsTrue (is_ascending (map (λ item. item.key) items.now)) }
    ensures failure { FailsAs result (unless (list_all (is_item_of Files generation) items.now) rule.Item address) }
    ensures read { IfOk result (λ below. IsLeafRead generation items.now below) }
    ensures disk { IsErrOf result OpenFault.Disk → ⊥ }
{
    let mut parts: Sequence<FilePart> = Sequence::with_capacity(alloc, items.len())?;
    add_said::<FilePart, Sequence<FilePart>>(generation, address, items, &mut parts)?;
    Ok(Below {
        last: last_of(items),
        row: row_of(parts.as_slice()),
    })
}

// What the rule `file` needs of a row of items.
fn row_of(parts: &[FilePart]) -> FileRow
    requires { IsTrue (is_ascending (map file_key parts.now)) }
    ensures { Tells result parts.now }
{
    let mut row = FileRow::empty();
    for part in parts {
        row.push(part);
    }
    row
}
