// A book of references as a tree sees it.
ghost use Rattle.std.specs.Prelude.{◌≡◌, ◌+◌, ◌≤◌, ℕ, Bool, List, [], ◌∷◌, ◌++◌, Some, IsSome, IfOk, OnOk};
ghost use Rattle.qg_device.specs.History.{Event, Recorded};
ghost use Rattle.qg_node.specs.declared.node.Node.{Node as NodeValue};
ghost use Rattle.qg_blocks.specs.NodesFound.{IsBacked, fresh_at, held_at, told};
ghost use Rattle.qg_blocks.specs.Stopping.{StopsForCause};
ghost use Rattle.qg_node_alloc.specs.declared.ground.Ground.{Ground as Land};
ghost use Rattle.qg_node_alloc.specs.Land.{IsDrafted, Rests};
ghost use Rattle.qg_node_alloc.specs.Calls.{FailsByDisk};
ghost use Rattle.qg_node_alloc.specs.Changes.{PutsFresh};
ghost use Rattle.qg_node_alloc.specs.Tellings.{Telling, IsCopied, TakesNone, GivesBack, LetsGo, Spares, Empties};
ghost use Rattle.qg_node_alloc.specs.Tellings.{KeepsLevels};
ghost use Rattle.qg_node_alloc.specs.Tellings.Telling.{Copied, Made, Left};

use crate::Ground;
use qg_disk::Disk;
use qg_num::{Address, BlockFault, Steps};
use std::sync::ledger::Ledger;

/// Who keeps count of the references to a tree's nodes, and is told of each node that the tree copies, makes or leaves
/// (this project's own). It may give back slots that nothing refers to any more. Over a disk that tells no call of it
/// names a rule; over any disk, only for a cause.
pub trait Book<D: Disk, L: Ledger> {
    /// The book after it was told these, in this order, from another state on.
    ghost follows: { Self → List Telling → Self → Type 0 };

    /// What a call asks of book, land and disk, and leaves so where it answers Ok.
    ghost stands: { Self → Land → D → Type 0 };

    /// What stands of book, land and disk between two edits, where all was told: for a book of references, that the
    /// present state has a slot exactly where references lead to it.
    ghost settled: { Self → Land → D → Type 0 };

    /// Whether several references lead to the node at an address.
    ghost shares: { Self → Land → D → ℕ → Bool };

    /// How many steps its calls have taken in all to look up what it keeps. One more may be taken by each for the node
    /// that it is about.
    ghost spent: { Self → ℕ };

    /// Whether several references lead to the node at an address.
    fn is_shared(
        &mut self,
        land: &mut Ground,
        disk: &mut D,
        at: Address,
        reads: &mut Steps<L>,
    ) -> Result<bool, BlockFault>
        requires backed { IsBacked land.old.blocks (D.history disk.old) }
        requires stands { stands self.old land.old disk.old }
        ensures exact { (events : List Event) → D.history disk.old ≡ Recorded events
            → IfOk result (λ shared. shared ≡ shares self.old land.old disk.old at) }
        ensures told { (before : Self) (log : List Telling) → follows before log self.old
            → OnOk result (follows before log self.new) }
        ensures takes { OnOk result (TakesNone land.old land.new) }
        ensures rests { (generation : ℕ) → IsDrafted land.old generation
            → Rests land.old land.new (D.history disk.new) generation }
        ensures stands { OnOk result (stands self.new land.new disk.new) }
        ensures settled { settled self.old land.old disk.old → OnOk result (settled self.new land.new disk.new) }
        ensures stops { StopsForCause result land.old.blocks.draft.sizes (D.size disk.old) }
        ensures disk { (D.history disk.new ≡ D.history disk.old) × (D.size disk.new ≡ D.size disk.old) }
        ensures fails { FailsByDisk (D.history disk.old) (D.faults disk.old) (D.faults disk.new) result }
        ensures reads { reads.new + spent self.old ≤ reads.old + spent self.new + 1 };

    /// The node at an address was copied. The copy is fresh. The node's own slot may be given back.
    fn copied(
        &mut self,
        land: &mut Ground,
        disk: &mut D,
        at: Address,
        copy: Address,
        reads: &mut Steps<L>,
    ) -> Result<(), BlockFault>
        requires backed { IsBacked land.old.blocks (D.history disk.old) }
        requires stands { stands self.old land.old disk.old }
        requires copied { IsCopied land.old (D.history disk.old) at copy }
        ensures told { (node : NodeValue) → told land.old.blocks.draft (D.history disk.old) at ≡ Some node
            → (before : Self) (log : List Telling) → follows before log self.old
            → OnOk result (follows before (log ++ Copied node copy ∷ []) self.new) }
        ensures gives { OnOk result (GivesBack land.old land.new at) }
        ensures rests { (generation : ℕ) → IsDrafted land.old generation
            → Rests land.old land.new (D.history disk.new) generation }
        ensures stands { OnOk result (stands self.new land.new disk.new) }
        ensures settled { (before : Land) → PutsFresh before land.old copy → settled self.old before disk.old
            → OnOk result (settled self.new land.new disk.new) }
        ensures stops { StopsForCause result land.old.blocks.draft.sizes (D.size disk.old) }
        ensures disk { (D.history disk.new ≡ D.history disk.old) × (D.size disk.new ≡ D.size disk.old) }
        ensures fails { FailsByDisk (D.history disk.old) (D.faults disk.old) (D.faults disk.new) result }
        ensures reads { reads.new + spent self.old ≤ reads.old + spent self.new + 1 };

    /// A node was made at an address. It is fresh.
    fn made(
        &mut self,
        land: &mut Ground,
        disk: &mut D,
        at: Address,
        reads: &mut Steps<L>,
    ) -> Result<(), BlockFault>
        requires backed { IsBacked land.old.blocks (D.history disk.old) }
        requires stands { stands self.old land.old disk.old }
        requires fresh { IsSome (fresh_at land.old.blocks.draft at) }
        ensures told { (before : Self) (log : List Telling) → follows before log self.old
            → OnOk result (follows before (log ++ Made at ∷ []) self.new) }
        ensures takes { OnOk result (TakesNone land.old land.new) }
        ensures rests { (generation : ℕ) → IsDrafted land.old generation
            → Rests land.old land.new (D.history disk.new) generation }
        ensures stands { OnOk result (stands self.new land.new disk.new) }
        ensures settled { (before : Land) → PutsFresh before land.old at → settled self.old before disk.old
            → OnOk result (settled self.new land.new disk.new) }
        ensures stops { StopsForCause result land.old.blocks.draft.sizes (D.size disk.old) }
        ensures disk { (D.history disk.new ≡ D.history disk.old) × (D.size disk.new ≡ D.size disk.old) }
        ensures fails { FailsByDisk (D.history disk.old) (D.faults disk.old) (D.faults disk.new) result }
        ensures reads { reads.new + spent self.old ≤ reads.old + spent self.new + 1 };

    /// The tree reaches the node at an address no more. It is in memory. Its slot may be given back, and a fresh one be
    /// forgotten.
    fn left(
        &mut self,
        land: &mut Ground,
        disk: &mut D,
        at: Address,
        reads: &mut Steps<L>,
    ) -> Result<(), BlockFault>
        requires backed { IsBacked land.old.blocks (D.history disk.old) }
        requires stands { stands self.old land.old disk.old }
        requires loaded { IsSome (held_at land.old.blocks at) }
        ensures told { (node : NodeValue) → told land.old.blocks.draft (D.history disk.old) at ≡ Some node
            → (before : Self) (log : List Telling) → follows before log self.old
            → OnOk result (follows before (log ++ Left node ∷ []) self.new) }
        ensures gone { OnOk result (LetsGo land.old land.new at) }
        ensures rests { (generation : ℕ) → IsDrafted land.old generation
            → Rests land.old land.new (D.history disk.new) generation }
        ensures stands { OnOk result (stands self.new land.new disk.new) }
        ensures settled { (before : Land) → Empties before land.old at → settled self.old before disk.old
            → OnOk result (settled self.new land.new disk.new) }
        ensures stops { StopsForCause result land.old.blocks.draft.sizes (D.size disk.old) }
        ensures disk { (D.history disk.new ≡ D.history disk.old) × (D.size disk.new ≡ D.size disk.old) }
        ensures fails { FailsByDisk (D.history disk.old) (D.faults disk.old) (D.faults disk.new) result }
        ensures reads { reads.new + spent self.old ≤ reads.old + spent self.new + 1 };

    /// What a call asks outlasts what a tree does between two calls.
    ghost lasts: { (book : Self) (old new : Land) (before after : D) → D.history after ≡ D.history before
        → D.size after ≡ D.size before
        → IsBacked new.blocks (D.history after) → Spares old new → stands book old before → stands book new after };

    /// What stands between two edits outlasts what a tree does to fresh nodes in place, and what is read of the disk.
    ghost keeps: { (book : Self) (old new : Land) (before after : D) → D.history after ≡ D.history before
        → new.space ≡ old.space → KeepsLevels old new
        → settled book old before → settled book new after };
}
