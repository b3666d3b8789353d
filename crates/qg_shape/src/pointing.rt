// The pointer to a node.
ghost use Rattle.std.specs.Prelude.{◌≡◌};
ghost use Rattle.qg_node.specs.Fits.{PointerFits};
ghost use Rattle.qg_shape.specs.Pointing.{pointer_to};

use qg_node::{Node, Pointer};
use qg_num::Key;

const NO_KEY: Key = Key {
    objectid: 0,
    kind: 0,
    offset: 0,
};

/// The pointer that leads to a node. Its key is the node's first, all zero where the node is empty.
pub fn pointer_to(node: &Node) -> Pointer
    ensures pointer { result ≡ pointer_to node.now }
    ensures fits { PointerFits result }
{
    let header = node.header();
    fitting(Pointer {
        key: node.first_key().unwrap_or(NO_KEY),
        child: header.address,
        generation: header.generation,
    })
}

// A proof knows a number's range where it is handed over.
fn fitting(pointer: Pointer) -> Pointer
    ensures same { result ≡ pointer }
    ensures fits { PointerFits pointer }
{
    pointer
}
