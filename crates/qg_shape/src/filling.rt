// How full a node is.
ghost use Rattle.std.specs.Prelude.{◌↔◌, ◌≤◌, IsTrue};
ghost use Rattle.qg_node.specs.NodeText.{IsNodeSize};
ghost use Rattle.qg_shape.specs.Filled.{IsOverfull, IsThin};

use qg_node::{HEADER_BYTES, Node};

/// Whether a node has more than fits in so many bytes.
pub fn is_overfull(node: &Node, nodesize: u32) -> bool
    ensures { IsTrue result ↔ IsOverfull nodesize node.now }
{
    !node.has_room(nodesize as usize)
}

/// Whether a node of so many bytes is not a quarter full.
pub fn is_thin(node: &Node, nodesize: u32) -> bool
    requires { IsNodeSize nodesize }
    ensures { IsTrue result ↔ IsThin nodesize node.now }
{
    let room = nodesize as usize - HEADER_BYTES;
    node.has_room(HEADER_BYTES + (room - 1) / 4)
}
