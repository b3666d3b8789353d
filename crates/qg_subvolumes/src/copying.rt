// A copy of a root node.
ghost use Rattle.std.specs.Prelude.{◌≡◌, IfOk};
ghost use Rattle.qg_node.specs.Fits.{HeaderFits};
ghost use Rattle.qg_node.specs.Nodes.{header_of};
ghost use Rattle.qg_node_alloc.specs.Tellings.{node_copy};

use qg_node::{Header, Node, Pointers, copy_items};
use qg_num::{Generation, NoMemory, RootId};
use std::alloc::Global;

/// A node with the same items or pointers, by another subvolume and of a generation.
pub(crate) fn copy_node(
    alloc: Global,
    node: &Node,
    owner: RootId,
    generation: Generation,
) -> Result<Node, NoMemory>
    ensures copy { IfOk result (λ copy. copy ≡ node_copy node.now (header_of node.now).address owner generation) }
    ensures fits { IfOk result (λ copy. HeaderFits (header_of copy)) }
{
    match node {
        Node::Leaf { header, items } => Ok(Node::Leaf {
            header: copy_header(*header, owner, generation),
            items: copy_items(alloc, items.as_slice())?,
        }),
        Node::Inner { header, pointers } => Ok(Node::Inner {
            header: copy_header(*header, owner, generation),
            pointers: Pointers::from_slice(alloc, pointers.as_slice())?,
        }),
    }
}

// The header of a copy. Its numbers fit their fields.
fn copy_header(header: Header, owner: RootId, generation: Generation) -> Header
    ensures header { result ≡ record header { owner = owner; generation = generation } }
    ensures fits { HeaderFits result }
{
    Header {
        owner,
        generation,
        ..header
    }
}
