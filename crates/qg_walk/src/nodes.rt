// What is kept of the nodes that a walk reaches.
ghost use Rattle.std.specs.Prelude.{◌≡◌};

use qg_node::Node;
use qg_num::{Address, NoMemory, Sequence};

/// What a reader keeps of the nodes of a tree, each before those below it (this project's own).
pub trait NodeList: Sized + Drop {
    ghost use Rattle.std.specs.Prelude.{◌≡◌, ◌++◌, ◌∷◌, [], List, OnOk};
    ghost use Rattle.qg_node.specs.declared.node.Node.{Node as NodeValue};

    /// This is what it keeps of these nodes, in their order.
    ghost keeps: { Self → List NodeValue → Type 0 };

    /// Keeps what it wants of one more node.
    fn push(&mut self, node: &Node) -> Result<(), NoMemory>
        ensures { (nodes : List NodeValue) → keeps self.old nodes
            → OnOk result (keeps self.new (nodes ++ node.now ∷ [])) };
}

/// Where nodes lie, in bytes.
impl NodeList for Sequence<Address> {
    ghost use Rattle.qg_walk.specs.WalkKeeps.{AreAddressesOf};

    ghost keeps = { AreAddressesOf };

    fn push(&mut self, node: &Node) -> Result<(), NoMemory> {
        self.push(node.header().address)?;
        Ok(())
    }
}
