// A node that is to go, or whose edit failed.
ghost use Rattle.std.specs.Prelude.{◌≡◌};
ghost use Rattle.qg_edit.specs.Outcome.{cleared};

use qg_node::{Header, Items, Node};

/// Puts an empty leaf in the place of a node, so that it leads to nothing.
pub fn clear(node: &mut Node)
    ensures { node.new ≡ cleared node.old }
{
    let header = Header {
        level: 0,
        ..node.header()
    };
    let alloc = match node {
        Node::Leaf { items, .. } => items.allocator(),
        Node::Inner { pointers, .. } => pointers.allocator(),
    };
    *node = Node::Leaf {
        header,
        items: Items::new(alloc),
    };
}
