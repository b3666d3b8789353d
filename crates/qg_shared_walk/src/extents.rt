// The data extents that nodes name.
ghost use Rattle.std.specs.Prelude.{◌≡◌, ◌++◌, map, IfOk, OnOk};
ghost use Rattle.std.specs.List.{filter_map};
ghost use Rattle.std.specs.List.Sorted.{IsPermutation, IsSortedBy};
ghost use Rattle.std.specs.Option.{option_and_then};
ghost use Rattle.qg_image.specs.ItemMeaning.{file_part};
ghost use Rattle.qg_image.specs.Reach.{extent_of, piece_of_part, pieces_of};
ghost use Rattle.qg_image.specs.Verdict.{extent_set, is_before};

use qg_image::Element;
use qg_node::{Item, Node};
use qg_num::Sequence;
use qg_reach::extent_of;
use qg_tree_items::piece_in;
use std::alloc::{AllocError, Global};

/// The data extents that a node's pieces name, in their order.
pub(crate) fn extents_of_node(alloc: Global, node: &Node) -> Result<Sequence<Element>, AllocError>
    ensures { IfOk result (λ extents. extents ≡ map extent_of (pieces_of node.now)) }
{
    match node {
        Node::Leaf { items, .. } => extents_of_items(alloc, items.as_slice()),
        Node::Inner { .. } => Ok(Sequence::new(alloc)),
    }
}

// The data extents that a leaf's items name.
fn extents_of_items(alloc: Global, items: &[Item]) -> Result<Sequence<Element>, AllocError>
    ensures { IfOk result (λ extents. extents
        ≡ map extent_of (filter_map (λ item. option_and_then piece_of_part (file_part item)) items.now)) }
{
    let mut extents = Sequence::with_capacity(alloc, items.len())?;
    for item in items {
        if let Some(piece) = piece_in(item) {
            extents.push(extent_of(&piece))?;
        }
    }
    Ok(extents)
}

/// Puts extents at the end.
pub(crate) fn put_extents(named: &mut Vec<Element>, extents: &[Element]) -> Result<(), AllocError>
    ensures { OnOk result (named.new.items ≡ named.old.items ++ extents.now) }
{
    for extent in extents {
        named.push(*extent)?;
    }
    Ok(())
}

/// Orders extents by address, and where that is one by length.
pub(crate) fn sort(extents: &mut Vec<Element>)
    ensures moved { IsPermutation extents.old.items extents.new.items }
    ensures sorted { IsSortedBy is_before extents.new.items }
{
    extents.sort_unstable_by_key(|extent| (extent.address, extent.bytes));
}

/// Extents that ascend, each once.
pub(crate) fn without_repeats(
    alloc: Global,
    sorted: &[Element],
) -> Result<Sequence<Element>, AllocError>
    requires { IsSortedBy is_before sorted.now }
    ensures { IfOk result (λ extents. extents ≡ extent_set sorted.now) }
{
    let mut extents = Sequence::new(alloc);
    for (i, extent) in sorted.iter().enumerate() {
        if i == 0 || sorted[i - 1] != *extent {
            extents.push(*extent)?;
        }
    }
    Ok(extents)
}
