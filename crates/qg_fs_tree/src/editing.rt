// Items of the tree are put in, replaced and taken out, and its references follow.
ghost use Rattle.std.specs.Prelude.{◌≡◌, ◌+◌, ◌*◌, ◌≤◌, ℕ, List, OnOk, IsTrue, length, not};
ghost use Rattle.qg_device.specs.Cause.{HasCause};
ghost use Rattle.qg_device.specs.History.{Event, Recorded};
ghost use Rattle.qg_num.specs.declared.piece.Piece.{Piece as PieceValue};
ghost use Rattle.qg_node.specs.declared.item.Item.{Item as ItemValue};
ghost use Rattle.qg_blocks.specs.Stopping.{StopsForCause};
ghost use Rattle.qg_blocks.specs.NodesFound.{BreaksNone};
ghost use Rattle.qg_space.specs.Holding.{free_slots};
ghost use Rattle.qg_tree_edits.specs.Edits.{has_key, with_item, without_key};
ghost use Rattle.qg_tree_edits.specs.NodeAllocCalls.{LeavesBe};
ghost use Rattle.qg_tree_edits.specs.Rooting.{Grows};
ghost use Rattle.qg_fs_tree.specs.Standing.{AreNamed, IsEditedTo, IsSubvolume, Stands};

use crate::FsTree;
use qg_disk::Disk;
use qg_image::FilePart;
use qg_node::Body;
use qg_num::{BlockFault, Key, Steps};
use qg_tree_backrefs::TreeRefs;
use qg_tree_edits::{insert, remove, replace};
use std::alloc::Global;
use std::sync::ledger::Ledger;

impl FsTree {
    /// Puts an item in its place. Its key must not be there, its body has at most 1024 bytes, and a piece that it tells
    /// is named.
    ///
    /// It takes at most 2·height + 3 slots. Over a disk that tells, no `Image` comes where the subvolume stands, the
    /// key is not there and 3·(height + 2) slots are free; over any disk it comes only for a cause. After an `Err`
    /// nothing of it is of use.
    pub fn insert<D: Disk, L: Ledger>(
        &mut self,
        alloc: Global,
        disk: &mut D,
        key: Key,
        body: Body,
        reads: &mut Steps<L>,
    ) -> Result<(), BlockFault>
        requires subvolume { IsSubvolume self.old (D.history disk.old) (D.size disk.old) }
        requires short { length body ≤ 1024 }
        ensures inserted { (items : List ItemValue) (names : List (ℕ × PieceValue))
            → Stands self.old (D.history disk.old) items names
            → IsTrue (not (has_key key items))
            → AreNamed self.old.tree.owner (with_item (record { key = key; body = body }) items) names
            → OnOk result (IsEditedTo self.old self.new (D.history disk.old)
            (with_item (record { key = key; body = body }) items) names (self.old.tree.height + 2)) }
        ensures sound { (events : List Event) → D.history disk.old ≡ Recorded events
            → (items : List ItemValue) (names : List (ℕ × PieceValue))
            → Stands self.old (D.history disk.old) items names → IsTrue (not (has_key key items))
            → 3 * (self.old.tree.height + 2) ≤ free_slots self.old.land.space → BreaksNone result }
        ensures stops { StopsForCause result self.old.land.blocks.draft.sizes (D.size disk.old) }
        ensures grows { OnOk result (Grows 1 self.old.tree self.new.tree self.old.land self.new.land) }
        ensures others { self.new.others ≡ self.old.others }
        ensures subvolume { IsSubvolume self.new (D.history disk.new) (D.size disk.new) }
        ensures rests { LeavesBe self.old.land self.new.land (D.history disk.old) (D.history disk.new) (D.size disk.old)
            (D.size disk.new)
            self.old.tree.next }
        ensures cause { HasCause BlockFault.Disk (D.faults disk.old) (D.faults disk.new) result }
        ensures reads { reads.new ≤ reads.old + 9 * (self.old.tree.height + 2) }
    {
        let _ascending = self.refs.refs().len();
        self.roomy()?;
        insert::<FilePart, D, L, TreeRefs>(
            &mut self.tree,
            alloc,
            &mut self.land,
            disk,
            &mut self.refs,
            key,
            body,
            reads,
        )?;
        let _ascending_still = self.refs.refs().len();
        self.fitting()
    }

    /// Gives the item with a key another body, of at most 1024 bytes. The key must be there, and a piece that the body
    /// tells is named. Else as [`FsTree::insert`].
    pub fn replace<D: Disk, L: Ledger>(
        &mut self,
        alloc: Global,
        disk: &mut D,
        key: Key,
        body: Body,
        reads: &mut Steps<L>,
    ) -> Result<(), BlockFault>
        requires subvolume { IsSubvolume self.old (D.history disk.old) (D.size disk.old) }
        requires short { length body ≤ 1024 }
        ensures replaced { (items : List ItemValue) (names : List (ℕ × PieceValue))
            → Stands self.old (D.history disk.old) items names
            → IsTrue (has_key key items)
            → AreNamed self.old.tree.owner (with_item (record { key = key; body = body }) items) names
            → OnOk result (IsEditedTo self.old self.new (D.history disk.old)
            (with_item (record { key = key; body = body }) items) names (self.old.tree.height + 2)) }
        ensures sound { (events : List Event) → D.history disk.old ≡ Recorded events
            → (items : List ItemValue) (names : List (ℕ × PieceValue))
            → Stands self.old (D.history disk.old) items names → IsTrue (has_key key items)
            → 3 * (self.old.tree.height + 2) ≤ free_slots self.old.land.space → BreaksNone result }
        ensures stops { StopsForCause result self.old.land.blocks.draft.sizes (D.size disk.old) }
        ensures grows { OnOk result (Grows 1 self.old.tree self.new.tree self.old.land self.new.land) }
        ensures others { self.new.others ≡ self.old.others }
        ensures subvolume { IsSubvolume self.new (D.history disk.new) (D.size disk.new) }
        ensures rests { LeavesBe self.old.land self.new.land (D.history disk.old) (D.history disk.new) (D.size disk.old)
            (D.size disk.new)
            self.old.tree.next }
        ensures cause { HasCause BlockFault.Disk (D.faults disk.old) (D.faults disk.new) result }
        ensures reads { reads.new ≤ reads.old + 9 * (self.old.tree.height + 2) }
    {
        let _ascending = self.refs.refs().len();
        self.roomy()?;
        replace::<FilePart, D, L, TreeRefs>(
            &mut self.tree,
            alloc,
            &mut self.land,
            disk,
            &mut self.refs,
            key,
            body,
            reads,
        )?;
        let _ascending_still = self.refs.refs().len();
        self.fitting()
    }

    /// Takes out the item with a key. The key must be there. Else as [`FsTree::insert`].
    pub fn remove<D: Disk, L: Ledger>(
        &mut self,
        alloc: Global,
        disk: &mut D,
        key: Key,
        reads: &mut Steps<L>,
    ) -> Result<(), BlockFault>
        requires subvolume { IsSubvolume self.old (D.history disk.old) (D.size disk.old) }
        ensures removed { (items : List ItemValue) (names : List (ℕ × PieceValue))
            → Stands self.old (D.history disk.old) items names
            → IsTrue (has_key key items)
            → OnOk result (IsEditedTo self.old self.new (D.history disk.old) (without_key key items) names
            (self.old.tree.height + 2)) }
        ensures sound { (events : List Event) → D.history disk.old ≡ Recorded events
            → (items : List ItemValue) (names : List (ℕ × PieceValue))
            → Stands self.old (D.history disk.old) items names → IsTrue (has_key key items)
            → 3 * (self.old.tree.height + 2) ≤ free_slots self.old.land.space → BreaksNone result }
        ensures stops { StopsForCause result self.old.land.blocks.draft.sizes (D.size disk.old) }
        ensures grows { OnOk result (Grows 0 self.old.tree self.new.tree self.old.land self.new.land) }
        ensures others { self.new.others ≡ self.old.others }
        ensures subvolume { IsSubvolume self.new (D.history disk.new) (D.size disk.new) }
        ensures rests { LeavesBe self.old.land self.new.land (D.history disk.old) (D.history disk.new) (D.size disk.old)
            (D.size disk.new)
            self.old.tree.next }
        ensures cause { HasCause BlockFault.Disk (D.faults disk.old) (D.faults disk.new) result }
        ensures reads { reads.new ≤ reads.old + 9 * (self.old.tree.height + 2) }
    {
        let _ascending = self.refs.refs().len();
        self.roomy()?;
        remove::<FilePart, D, L, TreeRefs>(
            &mut self.tree,
            alloc,
            &mut self.land,
            disk,
            &mut self.refs,
            key,
            reads,
        )?;
        let _ascending_still = self.refs.refs().len();
        self.fitting()
    }
}
