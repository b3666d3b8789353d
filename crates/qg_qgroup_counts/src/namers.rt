// Which nodes name each extent.
ghost use Rattle.std.specs.Prelude.{◌≡◌, map, length, IfOk, OnOk, IfSome, IfNone};
ghost use Rattle.std.specs.List.Sorted.{IsStrictlyIncreasing};
ghost use Rattle.qg_owner_rule.specs.Places.{StandsAt, AreOthers};
ghost use Rattle.qg_qgroup_counts.specs.Above.{AreEmpty};
ghost use Rattle.qg_qgroup_counts.specs.Groups.{AreWithin};
ghost use Rattle.qg_qgroup_counts.specs.Namers.{AreNamers, HasAtMost, HasNoted};

use crate::Surveyed;
use crate::places::Places;
use qg_image::Element;
use qg_num::Address;
use std::alloc::{AllocError, Global};

/// For each extent the indices of the nodes that name it. What is named and isn't among the extents is passed by.
pub(crate) fn namers_of(
    alloc: Global,
    nodes: &[Surveyed],
    extents: &[Element],
) -> Result<Vec<Places>, AllocError>
    ensures same { IfOk result (λ lists. length lists.items ≡ length extents.now) }
    ensures within { IfOk result (λ lists. AreWithin (length nodes.now) lists.items) }
    ensures namers { IsStrictlyIncreasing (map (λ extent. extent.address) extents.now)
        → IfOk result (λ lists. AreNamers nodes.now extents.now lists.items) }
{
    let mut lists = empty_lists(alloc, extents.len())?;
    for (i, node) in nodes.iter().enumerate() {
        note(lists.as_mut_slice(), extents, node.extents.as_slice(), i)?;
    }
    Ok(lists)
}

/// So many empty lists.
fn empty_lists(alloc: Global, count: usize) -> Result<Vec<Places>, AllocError>
    ensures same { IfOk result (λ lists. length lists.items ≡ count) }
    ensures empty { IfOk result (λ lists. AreEmpty lists.items) }
{
    let mut lists = Vec::with_capacity(alloc, count)?;
    for _place in 0..count {
        lists.push(Places::new(alloc))?;
    }
    Ok(lists)
}

/// Puts an index into the list of each extent that is named.
fn note(
    lists: &mut [Places],
    extents: &[Element],
    named: &[Address],
    index: usize,
) -> Result<(), AllocError>
    requires { length lists.old ≡ length extents.now }
    ensures same { OnOk result (length lists.new ≡ length lists.old) }
    ensures most { OnOk result (HasAtMost index lists.old lists.new) }
    ensures noted { IsStrictlyIncreasing (map (λ extent. extent.address) extents.now)
        → OnOk result (HasNoted extents.now named.now index lists.old lists.new) }
{
    let mut next = 0;
    for address in named {
        if let Some(place) = place_from(extents, next, *address) {
            lists[place].push(index)?;
            next = place + 1;
        }
    }
    Ok(())
}

/// The same as [`place_of_extent`]; where a file's pieces follow each other in its extents as in the file, the next
/// place is the one.
fn place_from(extents: &[Element], next: usize, address: Address) -> Option<usize>
    ensures there { IfSome result (λ place. StandsAt (λ extent. extent.address) extents.now address place) }
    ensures absent { IsStrictlyIncreasing (map (λ extent. extent.address) extents.now)
        → IfNone result (AreOthers (λ extent. extent.address) extents.now address) }
{
    match extents.get(next) {
        Some(extent) if extent.address == address => Some(next),
        _ => place_of_extent(extents, address),
    }
}

/// The index of the extent at an address. Where extents ascend, there is none exactly where none lies there.
fn place_of_extent(extents: &[Element], address: Address) -> Option<usize>
    ensures there { IfSome result (λ place. StandsAt (λ extent. extent.address) extents.now address place) }
    ensures absent { IsStrictlyIncreasing (map (λ extent. extent.address) extents.now)
        → IfNone result (AreOthers (λ extent. extent.address) extents.now address) }
{
    extents
        .binary_search_by_key(&address, |extent| extent.address)
        .ok()
}
