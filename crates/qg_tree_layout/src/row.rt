// One level of a tree.
ghost use Rattle.std.specs.Prelude.{◌≡◌, ◌<◌, ◌≤◌, ◌+◌, ◌-◌, ◌*◌, ◌^◌, ◌++◌, ◌∷◌, [], length, map, IfOk, OnOk};
ghost use Rattle.std.specs.List.{All, sum_by};
ghost use Rattle.qg_node.specs.Fits.{PointerFits};
ghost use Rattle.qg_node.specs.NodeText.{IsNodeSize};
ghost use Rattle.qg_super.specs.Places.{capacity};
ghost use Rattle.qg_tree_layout.specs.Row.{first_key, pointer_to, PutsRow};

use crate::cut::{first_cut, total};
use crate::part::Part;
use qg_node::{HEADER_BYTES, Header, Keyed, Node, Pointer, Pointers};
use qg_num::{Address, Generation, Key, NoMemory, RootId, Sequence};
use std::alloc::Global;

/// What the nodes of a level have in common.
#[derive(Clone, Copy)]
pub(crate) struct Level {
    /// The size of a node, in bytes.
    pub nodesize: u32,
    /// The tree that they belong to.
    pub owner: RootId,
    /// The commit that writes them.
    pub generation: Generation,
    /// 0 for leaves, and for other nodes one more than the level below.
    pub level: u8,
}

impl Level {
    /// The next level above.
    pub(crate) fn above(&self) -> Level
        requires { self.now.level < 255 }
        ensures { result ≡ record self.now { level = self.now.level + 1 } }
    {
        Level {
            level: self.level + 1,
            ..*self
        }
    }
}

/// Puts the nodes of one level behind those that are there, into the slots behind theirs. Answers the pointers to them.
pub(crate) fn put_row<T: Part>(
    alloc: Global,
    nodes: &mut Sequence<Node>,
    level: &Level,
    parts: &[T],
    slots: &[Address],
) -> Result<Pointers, NoMemory>
    requires size { IsNodeSize level.now.nodesize }
    requires level { T.on_level level.now.level }
    requires some { 1 ≤ level.now.level → 1 ≤ length parts.now }
    requires light { All (λ part. T.weight part ≤ 1049) parts.now }
    requires small { sum_by T.weight parts.now < 2 ^ 32 }
    requires room { 4 * sum_by T.weight parts.now < capacity level.now.nodesize *
        (length slots.now - length nodes.old) }
    requires fit { All T.fits parts.now }
    ensures row { IfOk result (λ pointers.
        PutsRow T.own T.weight level.now.nodesize level.now.owner level.now.generation level.now.level slots.now
        parts.now nodes.old nodes.new pointers) }
    ensures fit { IfOk result (λ pointers. All PointerFits pointers) }
{
    let room = (level.nodesize as usize - HEADER_BYTES) as u64;
    let mut left = parts;
    let mut weight = total(parts);
    let mut pointers = Pointers::new(alloc);
    'left: loop {
        let cut = first_cut(left, weight, room);
        let (front, back) = left.split_at(cut.count);
        let header = Header {
            address: slots[nodes.len()],
            generation: level.generation,
            owner: level.owner,
            level: level.level,
        };
        let node = T::node(alloc, header, front)?;
        pointers.push(put(nodes, node)?)?;
        if back.is_empty() {
            return Ok(pointers);
        }
        left = back;
        weight -= cut.taken;
    }
}

// Puts a node behind those that are there. Answers the pointer to it.
fn put(nodes: &mut Sequence<Node>, node: Node) -> Result<Pointer, NoMemory>
    ensures put { OnOk result (nodes.new ≡ nodes.old ++ node ∷ []) }
    ensures pointer { IfOk result (λ pointer. pointer ≡ pointer_to node) }
    ensures fits { IfOk result (λ pointer. PointerFits pointer) }
{
    let pointer = fitting(pointer_to(&node));
    nodes.push(node)?;
    Ok(pointer)
}

// A proof knows a number's range where it is handed over.
fn fitting(pointer: Pointer) -> Pointer
    ensures same { result ≡ pointer }
    ensures fits { PointerFits pointer }
{
    pointer
}

fn pointer_to(node: &Node) -> Pointer
    ensures { result ≡ pointer_to node.now }
{
    let (key, header) = match node {
        Node::Leaf { header, items } => (first_key(items.as_slice()), header),
        Node::Inner { header, pointers } => (first_key(pointers.as_slice()), header),
    };
    Pointer {
        key,
        child: header.address,
        generation: header.generation,
    }
}

const NO_KEY: Key = Key {
    objectid: 0,
    kind: 0,
    offset: 0,
};

// The key of the first of some items or pointers; all zero where there is none.
fn first_key<T: Keyed>(list: &[T]) -> Key
    ensures { result ≡ first_key (map T.key_of list.now) }
{
    match list {
        [] => NO_KEY,
        [first, ..] => first.key(),
    }
}
