// A node with one item or pointer more, less or changed.
ghost use Rattle.std.specs.Prelude.{◌≡◌, ◌+◌, ◌≤◌, ◌<◌, length, insert, remove, slice_get, slice_set, Some, OnOk};
ghost use Rattle.std.specs.Prelude.{OnErr};
ghost use Rattle.qg_node.specs.declared.item.Item.{Item};
ghost use Rattle.qg_node.specs.Nodes.{own_items, own_pointers};
ghost use Rattle.qg_shape.specs.Parts.{IsInner, IsLeaf, with_items, with_pointers};

use qg_node::{Body, Item, Node, Pointer};
use qg_num::NoMemory;

/// Puts an item into a leaf, in front of the one at a place or at the end. Where memory is refused, the leaf stays as
/// it was and the item is dropped.
pub fn insert_item(node: &mut Node, place: usize, item: Item) -> Result<(), NoMemory>
    requires leaf { IsLeaf node.old }
    requires place { place ≤ length (own_items node.old) }
    ensures ok { OnOk result (node.new ≡ with_items node.old (insert (own_items node.old) place item)) }
    ensures err { OnErr result (node.new ≡ node.old) }
{
    match node {
        Node::Leaf { items, .. } => Ok(items.insert(place, item)?),
        Node::Inner { .. } => unreachable!(),
    }
}

/// Puts another body under the key of an item of a leaf.
pub fn replace_body(node: &mut Node, place: usize, body: Body)
    requires leaf { IsLeaf node.old }
    requires place { place < length (own_items node.old) }
    ensures { (item : Item) → slice_get (own_items node.old) place ≡ Some item
        → node.new ≡ with_items node.old (slice_set (own_items node.old) place (record item { body = body })) }
{
    match node {
        Node::Leaf { items, .. } => {
            let key = items.as_slice()[place].key;
            items.set(place, Item { key, body });
        }
        Node::Inner { .. } => unreachable!(),
    }
}

/// Takes an item out of a leaf.
pub fn remove_item(node: &mut Node, place: usize) -> Item
    requires leaf { IsLeaf node.old }
    requires place { place < length (own_items node.old) }
    ensures taken { slice_get (own_items node.old) place ≡ Some result }
    ensures left { node.new ≡ with_items node.old (remove (own_items node.old) place) }
{
    match node {
        Node::Leaf { items, .. } => items.remove(place),
        Node::Inner { .. } => unreachable!(),
    }
}

/// Puts a pointer in the place of another.
pub fn set_pointer(node: &mut Node, place: usize, pointer: Pointer)
    requires inner { IsInner node.old }
    requires place { place < length (own_pointers node.old) }
    ensures { node.new ≡ with_pointers node.old (slice_set (own_pointers node.old) place pointer) }
{
    match node {
        Node::Leaf { .. } => unreachable!(),
        Node::Inner { pointers, .. } => pointers.set(place, pointer),
    }
}

/// Puts a pointer behind another. Where memory is refused, the node stays as it was.
pub fn insert_pointer(node: &mut Node, place: usize, pointer: Pointer) -> Result<(), NoMemory>
    requires inner { IsInner node.old }
    requires place { place < length (own_pointers node.old) }
    ensures ok { OnOk result (node.new ≡ with_pointers node.old (insert (own_pointers node.old) (place + 1) pointer)) }
    ensures err { OnErr result (node.new ≡ node.old) }
{
    match node {
        Node::Leaf { .. } => unreachable!(),
        Node::Inner { pointers, .. } => {
            prove!(place < pointers.len());
            Ok(pointers.insert(place + 1, pointer)?)
        }
    }
}

/// Takes a pointer out of an inner node.
pub fn remove_pointer(node: &mut Node, place: usize) -> Pointer
    requires inner { IsInner node.old }
    requires place { place < length (own_pointers node.old) }
    ensures taken { slice_get (own_pointers node.old) place ≡ Some result }
    ensures left { node.new ≡ with_pointers node.old (remove (own_pointers node.old) place) }
{
    match node {
        Node::Leaf { .. } => unreachable!(),
        Node::Inner { pointers, .. } => pointers.remove(place),
    }
}
