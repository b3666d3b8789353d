// Whether a tree may be built of items.
ghost use Rattle.std.specs.Prelude.{◌≡◌, ◌≤◌, ◌↔◌, IsTrue, length, map};
ghost use Rattle.std.specs.List.{All};
ghost use Rattle.qg_node.specs.Nodes.{ascends_from, is_ascending, items_bytes};
ghost use Rattle.qg_node.specs.NodeText.{IsNodeSize};
ghost use Rattle.qg_tree_build.specs.Building.{most_nodes};

use qg_node::{HEADER_BYTES, ITEM_HEADER_BYTES, Item};
use qg_num::Key;

/// The longest body of an item, in bytes.
const LONGEST_BODY: usize = 1024;

/// No image has more slots.
const MOST_SLOTS: u64 = 16128;

/// Whether a tree of these items may be built where so many slots are free.
pub(crate) fn is_buildable(nodesize: u32, items: &[Item], free: u64) -> bool
    requires { IsNodeSize nodesize }
    ensures ascending { IsTrue result → IsTrue (is_ascending (map (λ item. item.key) items.now)) }
    ensures short { IsTrue result → All (λ item. length item.body ≤ 1024) items.now }
    ensures slots { IsTrue result → most_nodes nodesize items.now ≤ free }
{
    let most = free.min(MOST_SLOTS);
    if most == 0 {
        return false;
    }
    let room = ((most - 1) / 5) as usize * (nodesize as usize - HEADER_BYTES);
    if !fit(items, room) {
        return false;
    }
    is_ascending(items) && are_short(items)
}

fn are_short(items: &[Item]) -> bool
    ensures { IsTrue result ↔ All (λ item. length item.body ≤ 1024) items.now }
{
    items.iter().all(|item| item.body.len() <= LONGEST_BODY)
}

// Whether each key is less than the next one.
#[tactic(auto, unfolding(qg_node::specs::Nodes::is_ascending))]
fn is_ascending(items: &[Item]) -> bool
    ensures { result ≡ is_ascending (map (λ item. item.key) items.now) }
{
    match items.split_first() {
        None => true,
        Some((first, others)) => ascends_from(first.key, others),
    }
}

#[tactic(auto, unfolding(qg_node::specs::Nodes::ascends_from))]
fn ascends_from(first: Key, others: &[Item]) -> bool
    ensures { result ≡ ascends_from first (map (λ item. item.key) others.now) }
{
    let mut before = first;
    for other in others {
        let key = other.key;
        if !before.is_before(key) {
            return false;
        }
        before = key;
    }
    true
}

// Whether items fit in so many bytes.
fn fit(items: &[Item], room: usize) -> bool
    ensures { IsTrue result ↔ (items_bytes items.now ≤ room) }
{
    let mut left = room;
    for item in items {
        if left < ITEM_HEADER_BYTES || left - ITEM_HEADER_BYTES < item.body.len() {
            return false;
        }
        left = left - ITEM_HEADER_BYTES - item.body.len();
    }
    true
}
