// The book in memory is a book of references.
ghost use Rattle.std.specs.Prelude.{Some};
ghost use Rattle.qg_extents.specs.Table.{book_of};

use crate::Extents;
use qg_disk::Disk;
use qg_num::{Address, BlockFault, Steps};
use qg_refs::{RefBook, RefList, Reference, What};
use std::alloc::Global;
use std::sync::ledger::Ledger;

/// It lies on no land and no disk, which stay as they are, and tells all that it holds. Only memory can be refused.
impl<G, D: Disk, L: Ledger> RefBook<G, D, L> for Extents {
    ghost use Rattle.std.specs.Prelude.{◌≡◌, ⊤, Some, length};
    ghost use Rattle.qg_refs.specs.Book.{references_at};
    ghost use Rattle.qg_extents.specs.Table.{book_of};

    ghost holds = { λ extents land disk. Some (book_of extents) };

    ghost stands = { λ extents land disk. ⊤ };

    ghost has_room = { λ extents land disk. ⊤ };

    ghost looks = { λ land disk land' disk'. (land' ≡ land) × (disk' ≡ disk) };

    ghost edits = { λ land disk land' disk'. (land' ≡ land) × (disk' ≡ disk) };

    ghost after_fault = { λ extents land disk extents' land' disk'. extents' ≡ extents };

    ghost to_read = { λ extents land disk at. length (references_at (book_of extents) at) };

    fn refs_of(
        &self,
        alloc: Global,
        land: &mut G,
        disk: &mut D,
        at: Address,
        reads: &mut Steps<L>,
    ) -> Result<RefList, BlockFault> {
        reads.tick();
        Ok(self.references(alloc, at)?)
    }

    fn count(
        &self,
        land: &mut G,
        disk: &mut D,
        at: Address,
        reference: Reference,
        reads: &mut Steps<L>,
    ) -> Result<u32, BlockFault> {
        reads.tick();
        Ok(self.count_one(at, &reference))
    }

    fn is_full(
        &self,
        land: &mut G,
        disk: &mut D,
        at: Address,
        reads: &mut Steps<L>,
    ) -> Result<bool, BlockFault> {
        reads.tick();
        Ok(self.is_marked(at))
    }

    fn add(
        &mut self,
        land: &mut G,
        disk: &mut D,
        at: Address,
        what: What,
        reference: Reference,
        reads: &mut Steps<L>,
    ) -> Result<(), BlockFault> {
        reads.tick();
        self.add_one(at, what, reference)?;
        Ok(())
    }

    fn drop_one(
        &mut self,
        land: &mut G,
        disk: &mut D,
        at: Address,
        reference: Reference,
        reads: &mut Steps<L>,
    ) -> Result<(), BlockFault> {
        reads.tick();
        self.drop_at(at, &reference);
        Ok(())
    }

    fn set_full(
        &mut self,
        land: &mut G,
        disk: &mut D,
        at: Address,
        reads: &mut Steps<L>,
    ) -> Result<(), BlockFault> {
        reads.tick();
        self.mark(at);
        Ok(())
    }
}
