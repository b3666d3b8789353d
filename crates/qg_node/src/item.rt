// Items of a leaf.
ghost use Rattle.std.specs.Prelude.{◌≡◌, ◌==◌, length, All, IfOk};
ghost use Rattle.qg_num.specs.Key.{IsKey};
ghost use Rattle.qg_node.specs.Fits.{ItemFits};

use qg_num::{Key, Sequence};
use smallvec::SmallVec;
use std::alloc::{AllocError, Global};
use std::marker::Model;

/// An item's body. A contract sees its bytes.
///
/// Up to 56 bytes lie in the value itself, so that the common bodies take no allocation.
#[derive(Drop)]
pub struct Body {
    bytes: SmallVec<u8, 56>,
}

impl Model for Body {
    ghost use Rattle.std.specs.Prelude.{List, ℕ};

    ghost Value = { List ℕ };

    ghost view = { λ b. b.bytes.items };
}

impl Body {
    /// A body of these bytes.
    pub fn from_slice(alloc: Global, bytes: &[u8]) -> Result<Body, AllocError>
        ensures { IfOk result (λ body. body ≡ bytes.now) }
    {
        Ok(Body {
            bytes: SmallVec::from_slice(alloc, bytes)?,
        })
    }

    /// The bytes.
    pub fn as_slice(&self) -> &[u8]
        ensures { result.now ≡ self.now }
    {
        self.bytes.as_slice()
    }

    /// How many bytes there are.
    pub fn len(&self) -> usize
        ensures { result ≡ length self.now }
    {
        self.bytes.len()
    }

    /// Whether there is no byte.
    pub fn is_empty(&self) -> bool
        ensures { result ≡ (length self.now == 0) }
    {
        self.bytes.is_empty()
    }
}

/// A key and what stands under it (on-disk format, "leaf node").
#[derive(Drop)]
pub struct Item {
    /// Its place in the order of keys.
    pub key: Key,
    /// Its bytes.
    pub body: Body,
}

impl Item {
    ghost use Rattle.qg_node.specs.Nodes.{item_under};

    /// The item under a key, its offset in the unit of its kind.
    pub fn new(
        alloc: Global,
        objectid: u64,
        kind: u8,
        offset: u64,
        bytes: &[u8],
    ) -> Result<Item, AllocError>
        ensures { IfOk result (λ item. item ≡ item_under objectid kind offset bytes.now) }
    {
        let key = Key {
            objectid,
            kind,
            offset,
        };
        Ok(Item {
            key,
            body: Body::from_slice(alloc, bytes)?,
        })
    }

    /// The same item once more.
    pub fn copy(&self, alloc: Global) -> Result<Item, AllocError>
        ensures copy { IfOk result (λ copy. copy ≡ self.now) }
        ensures fits { IfOk result (λ copy. ItemFits copy) }
    {
        let key = fitting(self.key);
        let bytes = self.body.as_slice();
        let body = Body::from_slice(alloc, bytes)?;
        Ok(Item { key, body })
    }
}

// A proof knows a number's range where it is handed over.
fn fitting(key: Key) -> Key
    ensures same { result ≡ key }
    ensures fits { IsKey key }
{
    key
}

/// The items of a leaf, or of several.
pub type Items = Sequence<Item>;

/// A copy of these items.
pub fn copy_items(alloc: Global, items: &[Item]) -> Result<Items, AllocError>
    ensures copy { IfOk result (λ copy. copy ≡ items.now) }
    ensures fit { IfOk result (λ copy. All ItemFits copy) }
{
    let mut copy = Items::with_capacity(alloc, items.len())?;
    for item in items {
        copy.push(item.copy(alloc)?)?;
    }
    Ok(copy)
}
