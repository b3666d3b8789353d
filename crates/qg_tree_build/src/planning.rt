// The nodes of a tree, and the slots that they are to lie in.
ghost use Rattle.std.specs.Prelude.{◌≡◌, ◌<◌, ◌≤◌, ◌^◌, ◌*◌, ◌+◌, IfOk, IsTrue, length, map};
ghost use Rattle.std.specs.List.{All};
ghost use Rattle.qg_node.specs.Nodes.{is_ascending, items_bytes};
ghost use Rattle.qg_node.specs.NodeText.{IsNodeSize};
ghost use Rattle.qg_space.specs.Holding.{free_slots};
ghost use Rattle.qg_node_alloc.specs.Land.{IsDrafted};
ghost use Rattle.qg_tree_build.specs.Building.{most_nodes};
ghost use Rattle.qg_tree_build.specs.Planning.{IsPlanned};

use qg_node::{HEADER_BYTES, ITEM_HEADER_BYTES, Item, Items};
use qg_node_alloc::Ground;
use qg_num::{Generation, NoMemory, RootId};
use qg_tree_layout::Built;
use std::alloc::Global;

// What items take, in bytes.
fn bytes_of(items: &[Item]) -> u64
    requires { items_bytes items.now < 2 ^ 32 }
    ensures { result ≡ items_bytes items.now }
{
    let mut bytes = 0;
    for item in items {
        bytes += (ITEM_HEADER_BYTES + item.body.len()) as u64;
    }
    bytes
}

// The most nodes that a tree of these items takes.
fn most_nodes(nodesize: u32, items: &[Item]) -> u64
    requires size { IsNodeSize nodesize }
    requires few { most_nodes nodesize items.now ≤ 16128 }
    ensures { result ≡ most_nodes nodesize items.now }
{
    let room = (nodesize as usize - HEADER_BYTES) as u64;
    5 * ((bytes_of(items) + (room - 1)) / room) + 1
}

/// The nodes of a tree of these items, each to lie in a free slot of its own.
pub(crate) fn plan_nodes(
    alloc: Global,
    land: &Ground,
    owner: RootId,
    next: Generation,
    items: &Items,
) -> Result<Built, NoMemory>
    requires drafted { IsDrafted land.now next }
    requires ascending { IsTrue (is_ascending (map (λ item. item.key) items.now)) }
    requires short { All (λ item. length item.body ≤ 1024) items.now }
    requires slots { most_nodes land.now.space.sizes.nodesize items.now ≤ free_slots land.now.space }
    ensures { IfOk result (λ built. IsPlanned land.now owner next items.now built.nodes built.root built.level) }
{
    let nodesize = land.blocks.nodesize();
    let count = most_nodes(nodesize, items.as_slice());
    let slots = land.space.free_list(alloc, count)?;
    qg_tree_layout::build(alloc, nodesize, owner, next, items, slots.as_slice())
}
