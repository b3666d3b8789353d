// The keys between which items of an address stand.
ghost use Rattle.std.specs.Prelude.{◌≡◌};
ghost use Rattle.qg_tree_items.specs.Keys.{key_with};
ghost use Rattle.qg_extent_read.specs.Looked.{reference_from, reference_to};

use qg_items::kind::{EXTENT_DATA_REF, SHARED_BLOCK_REF, SHARED_DATA_REF, TREE_BLOCK_REF};
use qg_num::{Address, Key};
use qg_refs::Reference;

/// The key of an address, a type and an offset.
pub(crate) fn key_at(at: Address, kind: u8, offset: u64) -> Key
    ensures { result ≡ key_with at kind offset }
{
    Key {
        objectid: at.value(),
        kind,
        offset,
    }
}

/// The key from which the item of a reference stands.
pub(crate) fn reference_from(at: Address, reference: &Reference) -> Key
    ensures { result ≡ reference_from at reference.now }
{
    match *reference {
        Reference::KeyedBlock { root } => key_at(at, TREE_BLOCK_REF, root.value()),
        Reference::KeyedData { .. } => key_at(at, EXTENT_DATA_REF, 0),
        Reference::SharedBlock { parent } => key_at(at, SHARED_BLOCK_REF, parent.value()),
        Reference::SharedData { parent } => key_at(at, SHARED_DATA_REF, parent.value()),
    }
}

/// The key up to which it stands.
pub(crate) fn reference_to(at: Address, reference: &Reference) -> Key
    ensures { result ≡ reference_to at reference.now }
{
    match *reference {
        Reference::KeyedBlock { root } => key_at(at, TREE_BLOCK_REF, root.value()),
        Reference::KeyedData { .. } => key_at(at, EXTENT_DATA_REF + 1, 0),
        Reference::SharedBlock { parent } => key_at(at, SHARED_BLOCK_REF, parent.value()),
        Reference::SharedData { parent } => key_at(at, SHARED_DATA_REF, parent.value()),
    }
}
