// What is surveyed of a node.
ghost use Rattle.std.specs.Prelude.{◌≡◌, map, IfOk};
ghost use Rattle.std.specs.List.{filter_map};
ghost use Rattle.std.specs.Option.{option_and_then};
ghost use Rattle.qg_node.specs.Nodes.{header_of};
ghost use Rattle.qg_image.specs.ItemMeaning.{file_part};
ghost use Rattle.qg_image.specs.Reach.{piece_of_part, pieces_of};
ghost use Rattle.qg_qgroup_counts.specs.Surveyed.{surveyed_of};

use qg_node::{Item, Node};
use qg_num::{Address, NoMemory, Sequence};
use qg_owner_rule::{Linked, linked_of};
use qg_tree_items::piece_in;
use std::alloc::{AllocError, Global};

/// A node that subvolumes reach, and where the extents begin that it names (this project's own). Addresses are in
/// bytes.
#[derive(Drop)]
pub struct Surveyed {
    /// What the rule `home` needs of it.
    pub linked: Linked,
    /// The addresses of the extents that its pieces name, in their order, as often as they are named.
    pub extents: Sequence<Address>,
}

/// What is surveyed of a node that has a full mark or hasn't.
pub fn surveyed_of(alloc: Global, node: &Node, full: bool) -> Result<Surveyed, NoMemory>
    ensures { IfOk result (λ it.
        it ≡ surveyed_of (header_of node.now).address (record { node = node.now; full = full })) }
{
    Ok(Surveyed {
        linked: linked_of(alloc, node, full)?,
        extents: extents_of(alloc, node)?,
    })
}

/// The addresses of the extents that a node's pieces name.
fn extents_of(alloc: Global, node: &Node) -> Result<Sequence<Address>, AllocError>
    ensures { IfOk result (λ extents. extents ≡ map (λ piece. piece.extent) (pieces_of node.now)) }
{
    match node {
        Node::Leaf { items, .. } => extents_in(alloc, items.as_slice()),
        Node::Inner { .. } => Ok(Sequence::new(alloc)),
    }
}

/// The addresses of the extents that items name.
fn extents_in(alloc: Global, items: &[Item]) -> Result<Sequence<Address>, AllocError>
    ensures { IfOk result (λ extents. extents ≡ map (λ piece. piece.extent)
        (filter_map (λ item. option_and_then piece_of_part (file_part item)) items.now)) }
{
    let mut extents = Sequence::new(alloc);
    for item in items {
        if let Some(piece) = piece_in(item) {
            extents.push(piece.extent)?;
        }
    }
    Ok(extents)
}
