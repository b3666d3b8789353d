// Which nodes point to each node.
ghost use Rattle.std.specs.Prelude.{◌≡◌, ◌<◌, map, length, IfOk, OnOk};
ghost use Rattle.std.specs.List.{All};
ghost use Rattle.std.specs.List.Sorted.{IsStrictlyIncreasing};
ghost use Rattle.qg_qgroup_counts.specs.Above.{AreEmpty, AreTurned, HaveOneMore, AreAbove};

use qg_num::Sequence;
use qg_owner_rule::{Linked, all_below};
use std::alloc::{AllocError, Global};

/// For each node the indices of those that point to it.
pub(crate) fn all_above(alloc: Global, nodes: &[Linked]) -> Result<Vec<Sequence<usize>>, AllocError>
    requires { IsStrictlyIncreasing (map (λ node. node.address) nodes.now) }
    ensures { IfOk result (λ above. AreAbove nodes.now above.items) }
{
    let below = all_below(alloc, nodes)?;
    let mut above = empty_lists(alloc, nodes.len())?;
    turn(above.as_mut_slice(), below.as_slice())?;
    Ok(above)
}

/// So many empty lists.
fn empty_lists(alloc: Global, count: usize) -> Result<Vec<Sequence<usize>>, AllocError>
    ensures same { IfOk result (λ lists. length lists.items ≡ count) }
    ensures empty { IfOk result (λ lists. AreEmpty lists.items) }
{
    let mut lists = Vec::with_capacity(alloc, count)?;
    for _place in 0..count {
        lists.push(Sequence::new(alloc))?;
    }
    Ok(lists)
}

/// Puts the index of each list into the lists at the indices that it has.
fn turn(above: &mut [Sequence<usize>], below: &[Sequence<usize>]) -> Result<(), AllocError>
    requires empty { AreEmpty above.old }
    requires inside { All (λ places. All (λ place. place < length above.old) places) below.now }
    ensures same { OnOk result (length above.new ≡ length above.old) }
    ensures turned { OnOk result (AreTurned below.now above.new) }
{
    for (parent, places) in below.iter().enumerate() {
        put_all(above, places.as_slice(), parent)?;
    }
    Ok(())
}

/// Puts an index into the lists at some indices.
fn put_all(above: &mut [Sequence<usize>], places: &[usize], parent: usize) -> Result<(), AllocError>
    requires { All (λ place. place < length above.old) places.now }
    ensures { OnOk result (HaveOneMore places.now parent above.old above.new) }
{
    for place in places {
        above[*place].push(parent)?;
    }
    Ok(())
}
