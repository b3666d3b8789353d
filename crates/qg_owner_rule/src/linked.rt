// What the rule needs of a node.
ghost use Rattle.std.specs.Prelude.{◌≡◌, map, IfOk};
ghost use Rattle.qg_node.specs.Nodes.{header_of, own_pointers};
ghost use Rattle.qg_owner_rule.specs.Linked.{linked_of};

use qg_node::{Node, Pointer};
use qg_num::{Address, NoMemory, RootId, Sequence};
use std::alloc::{AllocError, Global};

/// What the rule `home` needs of a node (this project's own). Addresses are in bytes.
#[derive(Drop)]
pub struct Linked {
    /// Where it lies.
    pub address: Address,
    /// Its level: 0 for a leaf.
    pub level: u8,
    /// The number of the tree that made it.
    pub owner: RootId,
    /// Its full mark (on-disk format, FULL_BACKREF).
    pub full: bool,
    /// Where its children lie, in their order.
    pub children: Sequence<Address>,
}

/// What the rule `home` needs of a node that has a full mark or hasn't.
pub fn linked_of(alloc: Global, node: &Node, full: bool) -> Result<Linked, NoMemory>
    ensures { IfOk result (λ linked.
        linked ≡ linked_of (header_of node.now).address (record { node = node.now; full = full })) }
{
    let header = node.header();
    Ok(Linked {
        address: header.address,
        level: header.level,
        owner: header.owner,
        full,
        children: children_of(alloc, node)?,
    })
}

/// Where the children of a node lie, in their order.
fn children_of(alloc: Global, node: &Node) -> Result<Sequence<Address>, AllocError>
    ensures { IfOk result (λ children. children ≡ map (λ pointer. pointer.child) (own_pointers node.now)) }
{
    match node {
        Node::Leaf { .. } => Ok(Sequence::new(alloc)),
        Node::Inner { pointers, .. } => children_in(alloc, pointers.as_slice()),
    }
}

/// Where the children that pointers name lie, in their order.
fn children_in(alloc: Global, pointers: &[Pointer]) -> Result<Sequence<Address>, AllocError>
    ensures { IfOk result (λ children. children ≡ map (λ pointer. pointer.child) pointers.now) }
{
    let mut children = Sequence::with_capacity(alloc, pointers.len())?;
    for pointer in pointers {
        children.push(pointer.child)?;
    }
    Ok(children)
}
