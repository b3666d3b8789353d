// Images that are made to be slow.
use crate::owed::image::{Image, slot, subvolume};
use qg_num::{Address, BlockFault, RootId, Sequence};
use std::alloc::{AllocError, Global};

/// How great images are.
#[derive(Clone, Copy)]
pub(crate) struct Sizes {
    /// How many subvolumes.
    pub roots: u64,
    /// How many nodes on each level below roots that have each another choice of children.
    pub width: u64,
    /// How many nodes on the level below, where all roots have the same children.
    pub inner: u64,
    /// How many leaves below these, or below a root that names one extent.
    pub leaves: u64,
    /// How many children a node has.
    pub fan: u64,
    /// How many pieces name the one extent.
    pub pieces: u64,
}

/// The greatest sizes, at 16128 slots of 4096 bytes.
pub(crate) const WHOLE: Sizes = Sizes {
    roots: 4096,
    width: 3008,
    inner: 99,
    leaves: 11933,
    fan: 121,
    pieces: 60000,
};

/// Half as many of all, with as many children each.
pub(crate) const HALF: Sizes = Sizes {
    roots: 2048,
    width: 1504,
    inner: 50,
    leaves: 5966,
    fan: 121,
    pieces: 30000,
};

/// A few of all.
pub(crate) const FEW: Sizes = Sizes {
    roots: 100,
    width: 60,
    inner: 6,
    leaves: 55,
    fan: 10,
    pieces: 500,
};

/// What is slow in an image.
#[derive(Clone, Copy)]
pub(crate) enum Shape {
    /// All roots have the same children.
    Same,
    /// Each root has another choice of children.
    Other,
    /// The same, and each way to a node goes through another's node.
    Strange,
    /// One extent is named by every piece of a file.
    Extent,
}

/// The shapes by their names.
pub(crate) const SHAPES: [(&str, Shape); 4] = [
    ("same", Shape::Same),
    ("other", Shape::Other),
    ("strange", Shape::Strange),
    ("extent", Shape::Extent),
];

/// The image of a shape.
pub(crate) fn image_of(alloc: Global, shape: Shape, sizes: &Sizes) -> Result<Image, BlockFault> {
    match shape {
        Shape::Same => same_children(alloc, sizes),
        Shape::Other => other_children(alloc, sizes, 0),
        Shape::Strange => other_children(alloc, sizes, sizes.width / 3),
        Shape::Extent => one_extent(alloc, sizes),
    }
}

/// Roots that all have the same children, and a tree of the first subvolume's nodes below.
fn same_children(alloc: Global, sizes: &Sizes) -> Result<Image, BlockFault> {
    let mut image = Image::with_roots(alloc, sizes.roots)?;
    let end = sizes.roots.wrapping_add(sizes.inner);
    for place in 0..sizes.roots {
        image.put_node(2, subvolume(place), row(alloc, sizes.roots, end)?)?;
    }
    put_leaves(alloc, &mut image, sizes.inner, sizes.leaves, sizes.fan)?;
    Ok(image)
}

/// One subvolume whose file's pieces, 51 a leaf, all name one extent.
fn one_extent(alloc: Global, sizes: &Sizes) -> Result<Image, BlockFault> {
    let mut image = Image::with_roots(alloc, 1)?;
    let leaves = sizes.pieces.div_ceil(51);
    let inner = leaves.checked_div(sizes.fan).unwrap_or(0).wrapping_add(1);
    image.put_node(2, subvolume(0), row(alloc, 1, inner.wrapping_add(1))?)?;
    put_leaves(alloc, &mut image, inner, leaves, sizes.fan)?;
    image.put_extent(sizes.pieces)?;
    Ok(image)
}

/// Some nodes of level 1 in the next slots, and leaves below them, behind them: all of the first subvolume.
fn put_leaves(
    alloc: Global,
    image: &mut Image,
    inner: u64,
    leaves: u64,
    fan: u64,
) -> Result<(), BlockFault> {
    let first = (image.nodes.len() as u64).wrapping_add(inner);
    let end = first.wrapping_add(leaves);
    for place in 0..inner {
        let from = first.wrapping_add(place.wrapping_mul(fan));
        let to = from.wrapping_add(fan).min(end);
        image.put_node(1, subvolume(0), row(alloc, from, to)?)?;
    }
    for _ in 0..leaves {
        image.put_node(0, subvolume(0), Sequence::new(alloc))?;
    }
    Ok(())
}

/// Some slots, from one number up to another.
fn row(alloc: Global, from: u64, to: u64) -> Result<Sequence<Address>, AllocError> {
    let mut children = Sequence::new(alloc);
    for number in from..to {
        children.push(slot(number))?;
    }
    Ok(children)
}

/// Roots that each have another choice of the same children, and below these three levels more, whose nodes have each
/// another choice of those below. Each node is reached by its owner. Where `turn` is 0 there is a way of the owner's
/// own nodes, and else each way to a node of the three lower levels goes through another's node.
fn other_children(alloc: Global, sizes: &Sizes, turn: u64) -> Result<Image, BlockFault> {
    let mut image = Image::with_roots(alloc, sizes.roots)?;
    for place in 0..sizes.roots {
        let step = if place < sizes.width { 25 } else { 29 };
        let children = choice(alloc, sizes, sizes.roots, place, step)?;
        image.put_node(4, subvolume(place), children)?;
    }
    put_level(alloc, &mut image, sizes, 3, 0, 1)?;
    put_level(alloc, &mut image, sizes, 2, turn, 25)?;
    put_level(alloc, &mut image, sizes, 1, turn, 1)?;
    for place in 0..sizes.width {
        image.put_node(0, owner(sizes, place, turn), Sequence::new(alloc))?;
    }
    Ok(image)
}

/// The nodes of a level in the next slots, whose children are among those behind them.
fn put_level(
    alloc: Global,
    image: &mut Image,
    sizes: &Sizes,
    level: u8,
    turn: u64,
    step: u64,
) -> Result<(), BlockFault> {
    let below = (image.nodes.len() as u64).wrapping_add(sizes.width);
    for place in 0..sizes.width {
        let children = choice(alloc, sizes, below, place, step)?;
        image.put_node(level, owner(sizes, place, turn), children)?;
    }
    Ok(())
}

/// Some of the nodes of a level whose first is in a slot: from a place on, each so many further, round the level.
fn choice(
    alloc: Global,
    sizes: &Sizes,
    first: u64,
    place: u64,
    step: u64,
) -> Result<Sequence<Address>, AllocError> {
    let mut children = Sequence::new(alloc);
    for number in 0..sizes.fan {
        let chosen = round(sizes, place.wrapping_add(number.wrapping_mul(step)));
        children.push(slot(first.wrapping_add(chosen)))?;
    }
    Ok(children)
}

/// Who owns the node at a place of a level.
fn owner(sizes: &Sizes, place: u64, turn: u64) -> RootId {
    subvolume(round(sizes, place.wrapping_add(turn)))
}

/// A place of a level, round it.
fn round(sizes: &Sizes, place: u64) -> u64 {
    place.checked_rem(sizes.width).unwrap_or(0)
}
