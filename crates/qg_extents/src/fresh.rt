// The references of an image that is just made.
ghost use Rattle.std.specs.Prelude.{◌≡◌, List, IfOk};
ghost use Rattle.qg_node.specs.declared.node.Node.{Node};
ghost use Rattle.qg_tree_items.specs.State.{layout_of};
ghost use Rattle.qg_tree_items.specs.Owed.{Agrees};
ghost use Rattle.qg_tree_items.specs.IsFresh.{fresh_state};
ghost use Rattle.qg_refs.specs.Book.{AgreesWithOwed};
ghost use Rattle.qg_extents.specs.Fresh.{fresh_table};
ghost use Rattle.qg_extents.specs.Table.{book_of};
ghost use Rattle.qg_extents.specs.Written.{parts_of_book};

use crate::Extents;
use qg_items::tree::TOP_LEVEL;
use qg_num::{Address, Generation, NoMemory, RootId};
use qg_refs::{Reference, What};
use qg_super::Sizes;
use std::alloc::Global;

/// The references of an image that is just made: the root node of its top-level subvolume, a leaf of generation 1 at an
/// address in bytes, has that of the subvolume, and nothing else has one (this project's own).
pub fn fresh_records(alloc: Global, sizes: Sizes, root: Address) -> Result<Extents, NoMemory>
    ensures exact { IfOk result (λ extents. extents ≡ fresh_table sizes.nodesize root) }
    ensures owed { IfOk result (λ extents. (others : List Node)
        → AgreesWithOwed (layout_of (fresh_state sizes others root)) (book_of extents)) }
    ensures agrees { IfOk result (λ extents. (others : List Node)
        → Agrees (layout_of (fresh_state sizes others root)) (parts_of_book extents)) }
{
    let mut extents = Extents::new(alloc);
    let leaf = What {
        bytes: sizes.nodesize,
        level: Some(0),
        generation: Generation::new(1),
    };
    let from = Reference::KeyedBlock {
        root: RootId::new(TOP_LEVEL),
    };
    extents.add_one(root, leaf, from)?;
    Ok(extents)
}
