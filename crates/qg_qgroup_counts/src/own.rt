// Which subvolumes begin at each node.
ghost use Rattle.std.specs.Prelude.{◌≡◌, map, length, IfOk};
ghost use Rattle.std.specs.List.Sorted.{IsStrictlyIncreasing};
ghost use Rattle.qg_qgroup_counts.specs.Above.{AreEmpty};
ghost use Rattle.qg_qgroup_counts.specs.Roots.{AreRoots};

use crate::rows::put_member;
use qg_num::{Address, RootId, Sequence};
use qg_owner_rule::{Linked, place_of_node};
use std::alloc::{AllocError, Global};

/// For each node the words of those subvolumes whose root it is.
pub(crate) fn root_rows(
    alloc: Global,
    roots: &[(RootId, Address)],
    nodes: &[Linked],
) -> Result<Vec<Sequence<u64>>, AllocError>
    requires { IsStrictlyIncreasing (map (λ node. node.address) nodes.now) }
    ensures same { IfOk result (λ rows. length rows.items ≡ length nodes.now) }
    ensures roots { IfOk result (λ rows. AreRoots nodes.now roots.now rows.items) }
{
    let mut rows = empty_rows(alloc, nodes.len())?;
    for (i, root) in roots.iter().enumerate() {
        if let Some(place) = place_of_node(nodes, root.1) {
            put_member(&mut rows[place], i)?;
        }
    }
    Ok(rows)
}

/// So many rows without members.
fn empty_rows(alloc: Global, count: usize) -> Result<Vec<Sequence<u64>>, AllocError>
    ensures same { IfOk result (λ rows. length rows.items ≡ count) }
    ensures empty { IfOk result (λ rows. AreEmpty rows.items) }
{
    let mut rows = Vec::with_capacity(alloc, count)?;
    for _place in 0..count {
        rows.push(Sequence::new(alloc))?;
    }
    Ok(rows)
}
