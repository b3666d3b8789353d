// What is read of one leaf.
ghost use Rattle.std.specs.Prelude.{◌≡◌, ◌++◌, map, IfOk, IsSome, OnOk, Some, IsTrue};
ghost use Rattle.qg_blocks.specs.Below.{leaf_items};
ghost use Rattle.qg_node.specs.Nodes.{is_ascending};
ghost use Rattle.qg_tree_read.specs.Reading.{body_at, is_within, items_within, last_upto};
ghost use Rattle.qg_tree_read.specs.Way.{next_within};

use qg_node::{Body, Item, Items, Node};
use qg_num::{Key, NoMemory};
use qg_shape::find_item;
use std::alloc::Global;

/// A leaf's items.
pub(crate) fn leaf_items(node: &Node) -> &[Item]
    requires { IsSome (leaf_items node.now) }
    ensures { leaf_items node.now ≡ Some result.now }
{
    match node {
        Node::Leaf { items, .. } => items.as_slice(),
        Node::Inner { .. } => unreachable!(),
    }
}

/// The body under a key, if an item has it.
pub(crate) fn body_of(alloc: Global, items: &[Item], key: Key) -> Result<Option<Body>, NoMemory>
    requires { IsTrue (is_ascending (map (λ item. item.key) items.now)) }
    ensures { IfOk result (λ body. body ≡ body_at key items.now) }
{
    match find_item(items, key) {
        Ok(place) => {
            let bytes = items[place].body.as_slice();
            Ok(Some(Body::from_slice(alloc, bytes)?))
        }
        Err(_) => Ok(None),
    }
}

/// The last item whose key is not greater than another.
pub(crate) fn last_of(alloc: Global, items: &[Item], to: Key) -> Result<Option<Item>, NoMemory>
    requires { IsTrue (is_ascending (map (λ item. item.key) items.now)) }
    ensures { IfOk result (λ item. item ≡ last_upto to items.now) }
{
    match find_item(items, to) {
        Ok(place) => Ok(Some(items[place].copy(alloc)?)),
        Err(0) => Ok(None),
        Err(place) => Ok(Some(items[place - 1].copy(alloc)?)),
    }
}

/// Puts the items from one key to another, both included, behind others.
pub(crate) fn add_within(
    items: &[Item],
    from: Key,
    to: Key,
    found: &mut Items,
) -> Result<(), NoMemory>
    ensures { OnOk result (found.new ≡ found.old ++ items_within from to items.now) }
{
    for item in items {
        if is_within(from, to, item.key) {
            found.push(item.copy(found.allocator())?)?;
        }
    }
    Ok(())
}

fn is_within(from: Key, to: Key, key: Key) -> bool
    ensures { result ≡ is_within from to key }
{
    !key.is_before(from) && !to.is_before(key)
}

/// The next key on the way, where it is not greater than another.
pub(crate) fn next_within(to: Key, next: Option<Key>) -> Option<Key>
    ensures { result ≡ next_within to next }
{
    match next {
        Some(key) if !to.is_before(key) => Some(key),
        _ => None,
    }
}
