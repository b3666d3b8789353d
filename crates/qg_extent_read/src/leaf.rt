// What a reader takes of one leaf.
ghost use Rattle.std.specs.Prelude.{◌≡◌, map, not, IsSome, IsTrue, OnOk, Some};
ghost use Rattle.std.specs.List.{list_all};
ghost use Rattle.std.specs.Ordering.{is_lt};
ghost use Rattle.qg_num.specs.Key.{key_cmp};
ghost use Rattle.qg_node.specs.Nodes.{is_ascending};
ghost use Rattle.qg_blocks.specs.Below.{leaf_items};
ghost use Rattle.qg_tree_read.specs.Reading.{items_within};
ghost use Rattle.qg_tree_read.specs.Way.{next_within};
ghost use Rattle.qg_extent_read.specs.Leaves.{taken_within};

use crate::ItemReader;
use qg_node::{Item, Node};
use qg_num::{Key, NoMemory};
use qg_shape::find_item;

/// A leaf's items.
pub(crate) fn leaf_items(node: &Node) -> &[Item]
    requires { IsSome (leaf_items node.now) }
    ensures { leaf_items node.now ≡ Some result.now }
{
    match node {
        Node::Leaf { items, .. } => items.as_slice(),
        Node::Inner { .. } => unreachable!(),
    }
}

/// Has a reader take the items from one key to another.
pub(crate) fn take_within<R: ItemReader>(
    items: &[Item],
    from: Key,
    to: Key,
    reader: &mut R,
) -> Result<(), NoMemory>
    requires { IsTrue (is_ascending (map (λ item. item.key) items.now)) }
    ensures { OnOk result (reader.new ≡ taken_within R.after reader.old from to items.now) }
{
    let rest = items_from(items, from);
    for item in rest {
        if to.is_before(item.key) {
            return Ok(());
        }
        reader.take(item)?;
    }
    Ok(())
}

// The items from a key on.
fn items_from(items: &[Item], key: Key) -> &[Item]
    requires { IsTrue (is_ascending (map (λ item. item.key) items.now)) }
    ensures from { IsTrue (list_all (λ item. not (is_lt (key_cmp item.key key))) result.now) }
    ensures within { (to : Key) → items_within key to items.now ≡ items_within key to result.now }
    ensures ascending { IsTrue (is_ascending (map (λ item. item.key) result.now)) }
{
    match find_item(items, key) {
        Ok(place) => &items[place..],
        Err(place) => &items[place..],
    }
}

/// The next key on the way, where it is not greater than another.
pub(crate) fn next_within(to: Key, next: Option<Key>) -> Option<Key>
    ensures { result ≡ next_within to next }
{
    match next {
        Some(key) if !to.is_before(key) => Some(key),
        _ => None,
    }
}
