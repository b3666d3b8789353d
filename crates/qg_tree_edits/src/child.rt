// The children of an inner node.
ghost use Rattle.std.specs.Prelude.{◌≡◌, ◌<◌, length, map, IsTrue, MatchOption};
ghost use Rattle.qg_shape.specs.Parts.{IsInner};
ghost use Rattle.qg_shape.specs.Places.{LeadsTo};
ghost use Rattle.qg_node.specs.Nodes.{is_ascending, own_pointers};
ghost use Rattle.qg_tree_edits.specs.Editing.{IsBeside, IsWayAt};

use qg_node::{Node, Pointer};
use qg_num::Key;
use qg_shape::child_for;
use qg_tree_read::Way;
use qg_walk::expected_below;

// Where a neighbour lies: the index of the first of the pair, and the way to the neighbour.
#[derive(Drop)]
pub(crate) struct Neighbour {
    pub front: usize,
    pub way: Way,
}

// The pointers of an inner node.
fn pointers_of(node: &Node) -> &[Pointer]
    requires { IsInner node.now }
    ensures { result.now ≡ own_pointers node.now }
{
    match node {
        Node::Inner { pointers, .. } => pointers.as_slice(),
        Node::Leaf { .. } => unreachable!(),
    }
}

// The place of the pointer that leads on to a key.
pub(crate) fn place_for(node: &Node, key: Key) -> usize
    requires inner { IsInner node.now }
    requires some { 0 < length (own_pointers node.now) }
    requires ascending { IsTrue (is_ascending (map (λ pointer. pointer.key) (own_pointers node.now))) }
    ensures { LeadsTo (map (λ pointer. pointer.key) (own_pointers node.now)) key result }
{
    child_for(pointers_of(node), key)
}

// The way that the pointer at a place leads.
pub(crate) fn way_at(node: &Node, to: Option<Key>, level: u8, place: usize) -> Way
    requires inner { IsInner node.now }
    requires inside { place < length (own_pointers node.now) }
    ensures { IsWayAt (own_pointers node.now) to level place result }
{
    let pointers = pointers_of(node);
    let pointer = &pointers[place];
    let others = &pointers[place + 1..];
    Way {
        address: pointer.child,
        expected: expected_below(level, to, pointer, others),
    }
}

// The neighbour of the child at a place: the one behind it, or else the one in front; none where there is no other
// child.
pub(crate) fn neighbour_of(
    node: &Node,
    to: Option<Key>,
    level: u8,
    place: usize,
) -> Option<Neighbour>
    requires inner { IsInner node.now }
    requires inside { place < length (own_pointers node.now) }
    ensures { MatchOption result (length (own_pointers node.now) ≡ 1)
        (λ beside. IsBeside (own_pointers node.now) to level place beside) }
{
    if place < pointers_of(node).len() - 1 {
        let way = way_at(node, to, level, place + 1);
        return Some(Neighbour { front: place, way });
    }
    if place == 0 {
        return None;
    }
    let way = way_at(node, to, level, place - 1);
    Some(Neighbour {
        front: place - 1,
        way,
    })
}
