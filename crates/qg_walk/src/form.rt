// What the way to a node leads to expect of it, and the rules from `depth` to `shape`.
ghost use Rattle.std.specs.Prelude.{◌≡◌, ◌≤◌, ◌*◌, ◌&&◌, ℕ, None, IsTrue, nat_le};
ghost use Rattle.qg_node.specs.Nodes.{is_ascending, own_keys, used_bytes};
ghost use Rattle.qg_super.specs.Places.{capacity};
ghost use Rattle.qg_image.specs.IsShaped.{is_first, is_shaped};
ghost use Rattle.qg_image.specs.Walk.{begins_at, ends_before, is_told, is_generation, next_key};
ghost use Rattle.qg_walk.specs.Standing.{expected_below, form_failure};

use crate::keys;
use qg_image::{Expected, Failure};
use qg_node::{HEADER_BYTES, Node, Pointer};
use qg_num::{Address, Generation, Key, Rule};
use qg_super::Super;
use qg_tree_items::TreePart;

/// What is expected of the node of a level that a pointer leads to. `others` are the pointers behind it, `to` the next
/// key on the way to its own node.
pub fn expected_below(level: u8, to: Option<Key>, pointer: &Pointer, others: &[Pointer]) -> Expected
    ensures { result ≡ expected_below level to pointer.now others.now }
{
    Expected {
        level: Some(level),
        generation: Some(pointer.generation),
        from: Some(pointer.key),
        to: next_key(to, others),
    }
}

// The key of the first pointer, or else the one on the way.
fn next_key(to: Option<Key>, pointers: &[Pointer]) -> Option<Key>
    ensures { result ≡ next_key to pointers.now }
{
    match pointers.first() {
        None => to,
        Some(pointer) => Some(pointer.key),
    }
}

/// The first of the rules from `depth` to `shape` that a node breaks, which lies at an address in bytes.
///
/// Of the superblock they ask the generation, which no node's is past, and the bytes of a node.
#[tactic(auto, unfolding(qg_image::specs::Walk::way_failure))]
pub fn form_failure<P: TreePart>(
    superblock: &Super,
    expected: &Expected,
    address: Address,
    node: &Node,
) -> Option<Failure>
    requires ascending { IsTrue (is_ascending (own_keys node.now)) }
    ensures { result ≡ form_failure P.tree superblock.now expected.now address node.now }
{
    let header = node.header();
    let rule = if !is_told_level(expected.level, header.level) {
        Rule::Depth
    } else if !P::is_owner(header.owner) {
        Rule::Owner
    } else if !is_generation(
        superblock.generation,
        expected.generation,
        header.generation,
    ) {
        Rule::Gen
    } else if !is_in_range(expected.from, expected.to, node) {
        Rule::Range
    } else if !is_shaped(superblock.nodesize, expected.from, node) {
        Rule::Shape
    } else {
        return None;
    };
    Some(Failure::Broken { rule, address })
}

fn is_told_level(told: Option<u8>, level: u8) -> bool
    ensures { result ≡ is_told told level }
{
    match told {
        None => true,
        Some(told) => told == level,
    }
}

/// Whether a node may have a generation: the one that is told, if one is, and one from 1 to the last commit's.
fn is_generation(last: Generation, told: Option<Generation>, generation: Generation) -> bool
    ensures { result ≡ is_generation last told generation }
{
    let is_told = match told {
        None => true,
        Some(told) => told == generation,
    };
    is_told && generation.value() > 0 && generation <= last
}

fn is_in_range(from: Option<Key>, to: Option<Key>, node: &Node) -> bool
    requires { IsTrue (is_ascending (own_keys node.now)) }
    ensures { result ≡ (begins_at from (own_keys node.now) && ends_before to (own_keys node.now)) }
{
    match node {
        Node::Leaf { items, .. } => keys::are_in_range(from, to, items.as_slice()),
        Node::Inner { pointers, .. } => keys::are_in_range(from, to, pointers.as_slice()),
    }
}

/// Whether a node has the shape of a root, or of one that a pointer of this key leads to.
#[tactic(auto, unfolding(qg_image::specs::IsShaped::is_shaped))]
fn is_shaped(nodesize: u32, from: Option<Key>, node: &Node) -> bool
    ensures { result ≡ is_shaped nodesize from node.now }
{
    let Some(key) = from else {
        return is_root_shaped(node);
    };
    takes_a_quarter(nodesize as usize, node) && is_first(key, node)
}

/// Whether the items or pointers of a node take a quarter at least of what the header leaves of its bytes.
///
/// No more of them is added up than that takes.
pub fn takes_a_quarter(nodesize: usize, node: &Node) -> bool
    ensures { result ≡ nat_le (capacity nodesize) (4 * used_bytes node.now) }
{
    nodesize <= HEADER_BYTES || !node.has_room(HEADER_BYTES + (nodesize - HEADER_BYTES - 1) / 4)
}

/// Whether a node has the shape of a root: it is a leaf, or has two pointers at least.
#[tactic(auto, unfolding(qg_image::specs::IsShaped::is_shaped))]
pub fn is_root_shaped(node: &Node) -> bool
    ensures { (nodesize : ℕ) → result ≡ is_shaped nodesize None node.now }
{
    match node {
        Node::Leaf { .. } => true,
        Node::Inner { pointers, .. } => pointers.len() >= 2,
    }
}

fn is_first(key: Key, node: &Node) -> bool
    ensures { result ≡ is_first key (own_keys node.now) }
{
    match node {
        Node::Leaf { items, .. } => keys::is_first(key, items.as_slice()),
        Node::Inner { pointers, .. } => keys::is_first(key, pointers.as_slice()),
    }
}
