// Where a key stands among items or pointers.
ghost use Rattle.std.specs.Prelude.{◌≡◌, ◌≤◌, ◌<◌, map, length, slice_get, Some, IfOk, IfErr, IsTrue};
ghost use Rattle.qg_node.specs.Nodes.{is_ascending};
ghost use Rattle.qg_shape.specs.Places.{GoesAt, LeadsTo};

use qg_node::{Item, Keyed, Pointer};
use qg_num::Key;

/// The place of the item with a key; where there is none, the place that it would be put at.
pub fn find_item(items: &[Item], key: Key) -> Result<usize, usize>
    requires { IsTrue (is_ascending (map (λ item. item.key) items.now)) }
    ensures found { IfOk result (λ place. slice_get (map (λ item. item.key) items.now) place ≡ Some key) }
    ensures absent { IfErr result (λ place. GoesAt (map (λ item. item.key) items.now) key place) }
{
    let place = items.partition_point(|item| item.key.is_before(key));
    if place < items.len() && items[place].key == key {
        Ok(place)
    } else {
        Err(place)
    }
}

/// The place of the pointer whose child may have a key: the last one whose key isn't greater, or the first where each
/// key is.
pub fn child_for(pointers: &[Pointer], key: Key) -> usize
    requires some { 0 < length pointers.now }
    requires ascending { IsTrue (is_ascending (map (λ pointer. pointer.key) pointers.now)) }
    ensures { LeadsTo (map (λ pointer. pointer.key) pointers.now) key result }
{
    let past = pointers.partition_point(|pointer| !key.is_before(pointer.key));
    past.saturating_sub(1)
}
