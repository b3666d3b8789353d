// A step down.
ghost use Rattle.std.specs.Prelude.{◌<◌, length, map, IsTrue};
ghost use Rattle.qg_node.specs.Nodes.{is_ascending, own_keys, own_pointers};
ghost use Rattle.qg_tree_read.specs.Way.{LeadsFor};

use qg_blocks::image::Expected;
use qg_node::{Node, Pointer};
use qg_num::{Address, Key};
use qg_shape::child_for;
use qg_walk::expected_below;

/// Where a way down a tree has come to: an address in bytes, and what is expected there.
#[derive(Drop)]
pub struct Way {
    /// The address, in bytes.
    pub address: Address,
    /// What the node there is expected to be.
    pub expected: Expected,
}

// The child of a node that leads on to a key. The children are of a level, and `to` is the next key on the way to the
// node.
pub(crate) fn next_way(node: &Node, to: Option<Key>, level: u8, key: Key) -> Way
    requires some { 0 < length (own_pointers node.now) }
    requires ascending { IsTrue (is_ascending (own_keys node.now)) }
    ensures { LeadsFor (own_pointers node.now) to level key result }
{
    match node {
        Node::Inner { pointers, .. } => way_among(pointers.as_slice(), to, level, key),
        Node::Leaf { .. } => unreachable!(),
    }
}

fn way_among(pointers: &[Pointer], to: Option<Key>, level: u8, key: Key) -> Way
    requires some { 0 < length pointers.now }
    requires ascending { IsTrue (is_ascending (map (λ pointer. pointer.key) pointers.now)) }
    ensures { LeadsFor pointers.now to level key result }
{
    let place = child_for(pointers, key);
    let pointer = &pointers[place];
    let others = &pointers[place + 1..];
    Way {
        address: pointer.child,
        expected: expected_below(level, to, pointer, others),
    }
}
