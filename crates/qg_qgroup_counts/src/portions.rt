// The bytes of extents and nodes, and who reaches them.
ghost use Rattle.std.specs.Prelude.{◌≡◌, ◌++◌, ℕ, List, [], map, length, IfOk, OnOk, slice_index};
ghost use Rattle.qg_owner_rule.specs.declared.linked.Linked.{Linked as Link};
ghost use Rattle.qg_qgroup_counts.specs.Reached.{TellsReach};
ghost use Rattle.qg_qgroup_counts.specs.Sets.{IsUnionOf};
ghost use Rattle.qg_qgroup_counts.specs.Groups.{AreWithin};
ghost use Rattle.qg_qgroup_counts.specs.ExtentBytes.{AreOfNamers, node_portions};

use crate::places::Places;
use crate::{Portion, Reached, SetId};
use qg_image::Element;
use qg_num::{NoMemory, Sequence};
use std::alloc::{AllocError, Global};

/// The portions of extents: each is reached by those who reach a node that names it.
pub(crate) fn extent_portions(
    alloc: Global,
    reached: &mut Reached,
    extents: &[Element],
    namers: &[Places],
) -> Result<Vec<Portion>, NoMemory>
    requires { length namers.now ≡ length extents.now }
    ensures { IfOk result (λ portions. (links : List Link) (roots : List (ℕ × ℕ))
        → TellsReach links roots reached.old → AreWithin (length links) namers.now
        → TellsReach links roots reached.new
        × AreOfNamers links roots reached.new.sets.rows.items namers.now extents.now portions.items) }
{
    let mut portions = Vec::with_capacity(alloc, extents.len())?;
    for (i, extent) in extents.iter().enumerate() {
        portions.push(portion_of(alloc, reached, extent, namers[i].as_slice())?)?;
    }
    Ok(portions)
}

/// The portion of an extent that the nodes at some indices name.
fn portion_of(
    alloc: Global,
    reached: &mut Reached,
    extent: &Element,
    places: &[usize],
) -> Result<Portion, NoMemory>
    ensures bytes { IfOk result (λ portion. portion.bytes ≡ extent.now.bytes) }
    ensures union { IfOk result (λ portion. IsUnionOf reached.old.sets.rows.items []
        (map (λ place. slice_index reached.old.numbers.items place) places.now) reached.new.sets.rows.items
        portion.set) }
    ensures reach { IfOk result (λ _. (links : List Link) (roots : List (ℕ × ℕ))
        → TellsReach links roots reached.old → TellsReach links roots reached.new) }
{
    let set = union_at(alloc, reached, places)?;
    Ok(Portion {
        bytes: extent.bytes,
        set,
    })
}

/// The union of the sets of the nodes at some indices. Of one index it takes no memory.
fn union_at(alloc: Global, reached: &mut Reached, places: &[usize]) -> Result<SetId, NoMemory>
    ensures union { IfOk result (λ set. IsUnionOf reached.old.sets.rows.items []
        (map (λ place. slice_index reached.old.numbers.items place) places.now) reached.new.sets.rows.items set) }
    ensures reach { IfOk result (λ _. (links : List Link) (roots : List (ℕ × ℕ))
        → TellsReach links roots reached.old → TellsReach links roots reached.new) }
{
    match places {
        [place] => {
            let set = reached.set_of(*place);
            reached.union(alloc, &[set])
        }
        _ => {
            let sets = sets_at(alloc, reached, places)?;
            reached.union(alloc, sets.as_slice())
        }
    }
}

/// The sets of the nodes at some indices.
fn sets_at(
    alloc: Global,
    reached: &Reached,
    places: &[usize],
) -> Result<Sequence<SetId>, AllocError>
    ensures { IfOk result (λ sets. sets ≡ map (λ place. slice_index reached.now.numbers.items place) places.now) }
{
    let mut sets = Sequence::with_capacity(alloc, places.len())?;
    for place in places {
        sets.push(reached.set_of(*place))?;
    }
    Ok(sets)
}

/// Puts the portions of all nodes at the end, whose bytes are these.
pub(crate) fn push_nodes(
    portions: &mut Vec<Portion>,
    reached: &Reached,
    nodesize: u32,
    count: usize,
) -> Result<(), AllocError>
    requires { length reached.now.numbers.items ≡ count }
    ensures { OnOk result (portions.new.items
        ≡ portions.old.items ++ node_portions nodesize reached.now.numbers.items) }
{
    for place in 0..count {
        portions.push(Portion {
            bytes: u64::from(nodesize),
            set: reached.set_of(place),
        })?;
    }
    Ok(())
}
