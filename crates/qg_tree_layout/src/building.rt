// A tree of items in order.
ghost use Rattle.std.specs.Prelude.{◌≡◌, ◌==◌, ◌<◌, ◌≤◌, ◌+◌, ◌*◌, ◌^◌, length, map, IfOk, IsTrue};
ghost use Rattle.std.specs.List.{All, IsDistinct};
ghost use Rattle.qg_node.specs.Nodes.{is_ascending, items_bytes};
ghost use Rattle.qg_node.specs.NodeText.{IsNodeSize};
ghost use Rattle.qg_image.specs.Need.{nodes_filled};
ghost use Rattle.qg_tree_layout.specs.Build.{IsBuilt};

use crate::row::{Level, put_row};
use qg_node::{Items, Node};
use qg_num::{Address, Generation, NoMemory, RootId, Sequence};
use std::alloc::Global;

/// A tree that was built.
#[derive(Drop)]
pub struct Built {
    /// Its nodes, in the order of the slots that they lie in.
    pub nodes: Sequence<Node>,
    /// Where its root lies, in bytes.
    pub root: Address,
    /// The level of its root, from 0 to 7.
    pub level: u8,
}

/// Builds a tree of these items, in the first of these slots, as a commit writes it that makes the generation `next`
/// (on-disk format, "B-tree").
///
/// Each node but the root is a quarter full at least, which is this project's own rule. `slots` are addresses of free
/// slots, in bytes.
pub fn build(
    alloc: Global,
    nodesize: u32,
    owner: RootId,
    next: Generation,
    items: &Items,
    slots: &[Address],
) -> Result<Built, NoMemory>
    requires size { IsNodeSize nodesize }
    requires ascending { IsTrue (is_ascending (map (λ item. item.key) items.now)) }
    requires short { All (λ item. length item.body ≤ 1024) items.now }
    requires room { 5 * nodes_filled nodesize (items_bytes items.now) + 1 ≤ length slots.now }
    requires distinct { IsDistinct (λ a b. a == b) slots.now }
    requires few { length slots.now ≤ 16128 }
    ensures { IfOk result (λ built. IsBuilt nodesize owner next items.now slots.now built.nodes built.root
        built.level) }
{
    let mut nodes = Sequence::new(alloc);
    let mut level = Level {
        nodesize,
        owner,
        generation: next,
        level: 0,
    };
    let mut pointers = put_row(alloc, &mut nodes, &level, items.as_slice(), slots)?;
    'levels: while pointers.len() > 1 {
        level = level.above();
        pointers = put_row(alloc, &mut nodes, &level, pointers.as_slice(), slots)?;
    }
    Ok(Built {
        root: pointers.as_slice()[0].child,
        nodes,
        level: level.level,
    })
}
