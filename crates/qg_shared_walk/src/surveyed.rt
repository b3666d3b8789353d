// What is surveyed of nodes, where some of them are full.
ghost use Rattle.std.specs.Prelude.{◌≡◌, map, IfOk};
ghost use Rattle.qg_qgroup_counts.specs.Surveyed.{links_in};

use qg_image::Element;
use qg_num::{Address, Sequence};
use qg_owner_rule::Linked;
use qg_qgroup_counts::Surveyed;
use std::alloc::{AllocError, Global};

/// Where extents begin, in bytes.
pub(crate) fn addresses_of(
    alloc: Global,
    extents: &[Element],
) -> Result<Sequence<Address>, AllocError>
    ensures { IfOk result (λ addresses. addresses ≡ map (λ extent. extent.address) extents.now) }
{
    let mut addresses = Sequence::with_capacity(alloc, extents.len())?;
    for extent in extents {
        addresses.push(extent.address)?;
    }
    Ok(addresses)
}

/// The nodes as they are linked.
pub(crate) fn links_of(alloc: Global, nodes: &[Surveyed]) -> Result<Vec<Linked>, AllocError>
    ensures { IfOk result (λ links. links.items ≡ links_in nodes.now) }
{
    let mut links = Vec::with_capacity(alloc, nodes.len())?;
    for node in nodes {
        let link = copy_of(alloc, &node.linked)?;
        links.push(link)?;
    }
    Ok(links)
}

// A copy of what is told of a node.
fn copy_of(alloc: Global, link: &Linked) -> Result<Linked, AllocError>
    ensures { IfOk result (λ copy. copy ≡ link.now) }
{
    Ok(Linked {
        address: link.address,
        level: link.level,
        owner: link.owner,
        full: link.full,
        children: Sequence::from_slice(alloc, link.children.as_slice())?,
    })
}
