// A reader that keeps nothing.
use qg_node::Node;
use qg_num::NoMemory;
use qg_walk::NodeList;

/// Keeps nothing of the nodes that it is lent (this project's own).
#[derive(Clone, Copy)]
pub(crate) struct Unkept {}

impl NodeList for Unkept {
    ghost use Rattle.qg_shared_walk.specs.Reading.{KeepsNothing};

    ghost keeps = { KeepsNothing };

    fn push(&mut self, _node: &Node) -> Result<(), NoMemory> {
        Ok(())
    }
}
