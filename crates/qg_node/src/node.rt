// Nodes.
ghost use Rattle.std.specs.Prelude.{◌≡◌, ◌↔◌, ◌+◌, ◌≤◌, ◌<◌, ◌^◌, slice_get, IsTrue};
ghost use Rattle.qg_node.specs.Nodes.{header_of, items_bytes, own_keys, used_bytes, is_ascending};
ghost use Rattle.qg_node.specs.NodeText.{IsLevelled, IsNode};

use crate::keyed::{first_of, is_ascending};
use crate::{Item, Items, Pointers};
use qg_num::{Address, Generation, Key, RootId};

/// How many bytes a node's header takes (on-disk format, "header").
pub const HEADER_BYTES: usize = 101;

/// How many bytes an item takes beside its body (on-disk format, "nodes and leaves").
pub const ITEM_HEADER_BYTES: usize = 25;

/// How many bytes a pointer takes (on-disk format, "nodes and leaves").
pub const POINTER_BYTES: usize = 33;

/// What a node says of itself (on-disk format, "header").
#[derive(Clone, Copy, PartialEq, Eq)]
pub struct Header {
    /// Where it lies, in bytes.
    pub address: Address,
    /// The generation of the commit that wrote it.
    pub generation: Generation,
    /// The number of the tree that made it.
    pub owner: RootId,
    /// 0 for a leaf, and one more than its children's for any other node.
    pub level: u8,
}

/// A node of a B-tree.
#[derive(Drop)]
pub enum Node {
    /// A node with items, of level 0.
    Leaf { header: Header, items: Items },
    /// A node with pointers, of a level from 1 to 7.
    Inner { header: Header, pointers: Pointers },
}

impl Node {
    /// What the node says of itself.
    pub fn header(&self) -> Header
        ensures { result ≡ header_of self.now }
    {
        match self {
            Node::Leaf { header, .. } => *header,
            Node::Inner { header, .. } => *header,
        }
    }

    /// Its level: 0 for a leaf.
    pub fn level(&self) -> u8
        ensures { result ≡ (header_of self.now).level }
    {
        self.header().level
    }

    /// Its first key; none exactly where it is empty.
    pub fn first_key(&self) -> Option<Key>
        ensures { result ≡ slice_get (own_keys self.now) 0 }
    {
        match self {
            Node::Leaf { items, .. } => first_of(items.as_slice()),
            Node::Inner { pointers, .. } => first_of(pointers.as_slice()),
        }
    }

    /// How many bytes behind its header the items or pointers take.
    pub fn used_bytes(&self) -> usize
        requires { used_bytes self.now < 2 ^ 64 }
        ensures { result ≡ used_bytes self.now }
    {
        match self {
            Node::Leaf { items, .. } => items_bytes(items.as_slice()),
            Node::Inner { pointers, .. } => POINTER_BYTES * pointers.len(),
        }
    }

    /// Whether the header and the items or pointers fit in so many bytes.
    pub fn has_room(&self, size: usize) -> bool
        ensures { IsTrue result ↔ (101 + used_bytes self.now ≤ size) }
    {
        if size < HEADER_BYTES {
            return false;
        }
        match self {
            Node::Leaf { items, .. } => items_fit(items.as_slice(), size - HEADER_BYTES),
            Node::Inner { pointers, .. } => pointers.len() <= (size - HEADER_BYTES) / POINTER_BYTES,
        }
    }

    /// Whether the node has a text of so many bytes: its level and its keys are a node's, and it fits.
    pub fn has_text(&self, size: usize) -> bool
        ensures { IsTrue result ↔ IsNode size self.now }
    {
        self.is_levelled() && self.is_ascending() && self.has_room(size)
    }

    fn is_levelled(&self) -> bool
        ensures { IsTrue result ↔ IsLevelled self.now }
    {
        match self {
            Node::Leaf { header, .. } => header.level == 0,
            Node::Inner { header, pointers } => {
                header.level >= 1 && header.level <= 7 && !pointers.is_empty()
            }
        }
    }

    fn is_ascending(&self) -> bool
        ensures { result ≡ is_ascending (own_keys self.now) }
    {
        match self {
            Node::Leaf { items, .. } => is_ascending(items.as_slice()),
            Node::Inner { pointers, .. } => is_ascending(pointers.as_slice()),
        }
    }
}

/// What the items take, in bytes.
fn items_bytes(items: &[Item]) -> usize
    requires { items_bytes items.now < 2 ^ 64 }
    ensures { result ≡ items_bytes items.now }
{
    let mut total = 0;
    for item in items {
        total += ITEM_HEADER_BYTES + item.body.len();
    }
    total
}

/// Whether the items fit in so many bytes. Where their headers alone don't, no body is looked at.
fn items_fit(items: &[Item], room: usize) -> bool
    ensures { IsTrue result ↔ (items_bytes items.now ≤ room) }
{
    if items.len() > room / ITEM_HEADER_BYTES {
        return false;
    }
    let mut left = room;
    for item in items {
        if left < ITEM_HEADER_BYTES || left - ITEM_HEADER_BYTES < item.body.len() {
            return false;
        }
        left = left - ITEM_HEADER_BYTES - item.body.len();
    }
    true
}
