// A book that is read from items, as an opening reads it.
use crate::order::do_parts_ascend;
use qg_extents::Extents;
use qg_image::ExtentPart;
use qg_node::Items;
use qg_num::{BlockFault, Generation};
use qg_tree_items::TreePart;
use std::alloc::Global;

/// The book that items of an extent tree tell: what each item says, and then the book.
pub(crate) fn read_book(alloc: Global, items: &Items) -> Result<Extents, BlockFault> {
    let mut parts = Vec::with_capacity(alloc, items.len())?;
    for item in items.as_slice() {
        let part = ExtentPart::read(item, Generation::new(2));
        parts.push(part.ok_or(BlockFault::NoMemory)?)?;
    }
    if !do_parts_ascend(&parts) {
        return Err(BlockFault::NoMemory);
    }
    Extents::read(alloc, 16384, &parts).map_err(|_| BlockFault::NoMemory)
}
