// Which subvolumes reach each node.
ghost use Rattle.std.specs.Prelude.{◌≡◌, map, IfOk};
ghost use Rattle.std.specs.List.Sorted.{IsStrictlyIncreasing};
ghost use Rattle.qg_qgroup_counts.specs.Reached.{TellsReach};
ghost use Rattle.qg_qgroup_counts.specs.Surveyed.{links_in};

use crate::{Reached, Surveyed, reached_from};
use qg_num::{Address, NoMemory, RootId, Sequence};
use qg_owner_rule::Linked;
use std::alloc::{AllocError, Global};

/// Which subvolumes reach each of some nodes (this project's own). The nodes ascend by address.
pub fn reached_of(
    alloc: Global,
    roots: &[(RootId, Address)],
    nodes: &[Surveyed],
) -> Result<Reached, NoMemory>
    requires { IsStrictlyIncreasing (map (λ node. node.linked.address) nodes.now) }
    ensures { IfOk result (λ reached. TellsReach (links_in nodes.now) roots.now reached) }
{
    let links = links_of(alloc, nodes)?;
    reached_from(alloc, roots, links.as_slice())
}

/// The nodes as they are linked.
fn links_of(alloc: Global, nodes: &[Surveyed]) -> Result<Vec<Linked>, AllocError>
    ensures { IfOk result (λ links. links.items ≡ links_in nodes.now) }
{
    let mut links = Vec::with_capacity(alloc, nodes.len())?;
    for node in nodes {
        links.push(copy_of(alloc, &node.linked)?)?;
    }
    Ok(links)
}

/// A copy of what is told of a node.
fn copy_of(alloc: Global, link: &Linked) -> Result<Linked, AllocError>
    ensures { IfOk result (λ copy. copy ≡ link.now) }
{
    Ok(Linked {
        address: link.address,
        level: link.level,
        owner: link.owner,
        full: link.full,
        children: Sequence::from_slice(alloc, link.children.as_slice())?,
    })
}
