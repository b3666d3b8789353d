// What begins at an address.
ghost use Rattle.std.specs.Prelude.{◌≡◌, ℕ, OnOk, Some};
ghost use Rattle.std.specs.List.Sorted.{IsNonDecreasingBy, IsPermutation};
ghost use Rattle.qg_image.specs.Owed.{Data, Block};
ghost use Rattle.qg_backref_rule.specs.OwedLists.{kind_at, kind_of};

use qg_image::Element;
use qg_node::Header;
use qg_num::{Address, Generation, NoMemory};

/// What there is at an address, as far as its record tells it (on-disk format, EXTENT_ITEM and METADATA_ITEM).
#[derive(Clone, Copy)]
pub enum Kind {
    /// A node.
    Node {
        /// Its level.
        level: u8,
        /// The generation in its header.
        generation: Generation,
        /// Its full mark (FULL_BACKREF).
        full: bool,
    },
    /// A data extent.
    Extent {
        /// Its length in bytes.
        bytes: u64,
    },
}

/// What begins at an address.
#[derive(Clone, Copy)]
pub struct Thing {
    /// The address, in bytes.
    pub address: Address,
    /// What it is.
    pub kind: Kind,
}

/// A node with this header, as a thing (on-disk format, METADATA_ITEM).
pub fn thing_of_node(header: &Header, full: bool) -> Thing
    ensures address { result.address ≡ header.now.address }
    ensures kind { Some result.kind ≡ kind_of (Block header.now full) }
{
    Thing {
        address: header.address,
        kind: Kind::Node {
            level: header.level,
            generation: header.generation,
            full,
        },
    }
}

/// A data extent, as a thing (on-disk format, EXTENT_ITEM).
pub fn thing_of_extent(extent: &Element) -> Thing
    ensures address { result.address ≡ extent.now.address }
    ensures kind { Some result.kind ≡ kind_of (Data extent.now.bytes) }
{
    Thing {
        address: extent.address,
        kind: Kind::Extent {
            bytes: extent.bytes,
        },
    }
}

/// Puts things in the order of their addresses; those of one address keep theirs, so that the list tells the same at
/// each.
pub fn sort_things(things: &mut Vec<Thing>) -> Result<(), NoMemory>
    ensures ascending { OnOk result (IsNonDecreasingBy (λ thing. thing.address) things.new.items) }
    ensures moved { IsPermutation things.old.items things.new.items }
    ensures same { (address : ℕ) → kind_at things.new.items address ≡ kind_at things.old.items address }
{
    things.sort_by_key(|thing| thing.address)?;
    Ok(())
}
