// What a tree tells its book.
ghost use Rattle.std.specs.Prelude.{◌≡◌, ◌+◌, ◌<◌, ◌≤◌, ℕ, true, [], length, List, Some, None, IfOk, IsSome};
ghost use Rattle.qg_device.specs.Cause.{HasCause};
ghost use Rattle.qg_device.specs.History.{History};
ghost use Rattle.qg_node.specs.declared.node.Node.{Node as NodeValue};
ghost use Rattle.qg_node.specs.Nodes.{header_of};
ghost use Rattle.qg_node_alloc.specs.NodesFound.{BreaksNone, IsBacked, fresh_at, held_at, told};
ghost use Rattle.qg_space.specs.Holding.{without_slot};
ghost use Rattle.qg_node_alloc.specs.Land.{IsDrafted, Rests};
ghost use Rattle.qg_node_alloc.specs.Tellings.{GivesBack, LetsGo};
ghost use Rattle.qg_refs.specs.Book.{references_at};
ghost use Rattle.qg_weighed.specs.Table.{book_of};

use crate::TreeRefs;
use qg_disk::Disk;
use qg_node_alloc::blocks::Blocks;
use qg_node_alloc::{Book, Ground};
use qg_num::{Address, BlockFault, Steps};
use qg_space::Space;
use qg_weighed::extents::Extents;
use std::sync::ledger::Ledger;

/// Reads the node at an address, and whether it is in memory then. One that breaks a rule is not.
fn try_load<D: Disk, L: Ledger>(
    blocks: &mut Blocks,
    disk: &mut D,
    at: Address,
    reads: &mut Steps<L>,
) -> Result<bool, BlockFault>
    requires { IsBacked blocks.old (D.history disk.old) }
    ensures held { IfOk result (λ found. found ≡ true → IsSome (held_at blocks.new at)) }
    ensures told { IfOk result (λ found. (node : NodeValue) → told blocks.old.draft (D.history disk.old) at ≡ Some node
        → (found ≡ true) × (held_at blocks.new at ≡ Some node)) }
    ensures draft { blocks.new.draft ≡ blocks.old.draft }
    ensures bound { blocks.new.bound ≡ blocks.old.bound }
    ensures backed { IsBacked blocks.new (D.history disk.new) }
    ensures unbroken { BreaksNone result }
    ensures history { D.history disk.new ≡ D.history disk.old }
    ensures size { D.size disk.new ≡ D.size disk.old }
    ensures cause { HasCause BlockFault.Disk (D.faults disk.old) (D.faults disk.new) result }
    ensures reads { reads.new ≡ reads.old + 1 }
{
    match blocks.load(disk, at, reads) {
        Ok(()) => Ok(true),
        Err(BlockFault::Image { .. }) => Ok(false),
        Err(fault) => Err(fault),
    }
}

/// Gives back a slot, where the present state has it.
fn give_back(space: &mut Space, at: Address)
    ensures { space.new ≡ record space.old { slots = without_slot at space.old.slots } }
{
    if space.has_slot(at) {
        space.give_slot(at);
    }
}

/// Lets a node go to which no reference is left: it is forgotten, and its slot given back, where the present state
/// has it.
pub fn let_go(refs: &Extents, land: &mut Ground, at: Address)
    ensures stays { 0 < length (references_at (book_of refs.now) at) → land.new ≡ land.old }
    ensures goes { references_at (book_of refs.now) at ≡ [] → (held_at land.new.blocks at ≡ None)
        × (land.new.space ≡ record land.old.space { slots = without_slot at land.old.space.slots }) }
    ensures gone { LetsGo land.old land.new at }
    ensures sizes { land.new.blocks.draft.sizes ≡ land.old.blocks.draft.sizes }
    ensures gives { fresh_at land.old.blocks.draft at ≡ None → GivesBack land.old land.new at }
    ensures rests { (history : History) (generation : ℕ) → IsBacked land.old.blocks history
        → IsDrafted land.old generation → Rests land.old land.new history generation }
{
    if refs.how_many(at) > 0 {
        return;
    }
    land.blocks.forget(at);
    give_back(&mut land.space, at);
}

/// Notes a misfit where a copy is of another level than the node. Both are in memory.
fn note_level(refs: &mut TreeRefs, blocks: &Blocks, at: Address, copy: Address)
    requires node { IsSome (held_at blocks.now at) }
    requires copy { IsSome (held_at blocks.now copy) }
    ensures same { (node mine : NodeValue) → held_at blocks.now at ≡ Some node → held_at blocks.now copy ≡ Some mine
        → (header_of mine).level ≡ (header_of node).level → refs.new ≡ refs.old }
    ensures fits { refs.new.misfit ≡ None → (refs.new ≡ refs.old)
        × ((node mine : NodeValue) → held_at blocks.now at ≡ Some node → held_at blocks.now copy ≡ Some mine
        → (header_of mine).level ≡ (header_of node).level) }
{
    if blocks.peek(copy).level() != blocks.peek(at).level() {
        refs.note(Some(copy));
    }
}

impl<D: Disk, L: Ledger> Book<D, L> for TreeRefs {
    ghost use Rattle.std.specs.Prelude.{◌≡◌, ⊤, None, length, nat_lt};
    ghost use Rattle.std.proofs.Common.{subst, sym};
    ghost use Rattle.qg_refs.specs.Book.{references_at};
    ghost use Rattle.qg_weighed.specs.Table.{book_of};
    ghost use Rattle.qg_tree_backrefs.specs.Following.{Follows};
    ghost use Rattle.qg_tree_backrefs.specs.Settled.{IsSettled};
    ghost use Rattle.qg_tree_backrefs.specs.Lasting.{settled_still};

    ghost follows = { λ before log after. Follows before log after };

    ghost stands = { λ book land disk. ⊤ };

    ghost settled = { λ book land disk. book.misfit ≡ None → IsSettled book land (D.history disk) };

    ghost shares = { λ book land disk at. nat_lt 1 (length (references_at (book_of book.refs) at)) };

    ghost spent = { λ book. 0 };

    fn is_shared(
        &mut self,
        _land: &mut Ground,
        _disk: &mut D,
        at: Address,
        _reads: &mut Steps<L>,
    ) -> Result<bool, BlockFault> {
        Ok(self.refs().how_many(at) > 1)
    }

    fn copied(
        &mut self,
        land: &mut Ground,
        disk: &mut D,
        at: Address,
        copy: Address,
        reads: &mut Steps<L>,
    ) -> Result<(), BlockFault> {
        if !try_load(&mut land.blocks, disk, at, reads)? {
            self.note(Some(at));
            return Ok(());
        }
        let _ascending = self.refs().len();
        self.copy(land.blocks.peek(at), copy)?;
        note_level(self, &land.blocks, at, copy);
        let_go(self.refs(), land, at);
        Ok(())
    }

    fn made(
        &mut self,
        land: &mut Ground,
        _disk: &mut D,
        at: Address,
        _reads: &mut Steps<L>,
    ) -> Result<(), BlockFault> {
        let _ascending = self.refs().len();
        let level = land.blocks.peek(at).level();
        self.make(at, level)?;
        Ok(())
    }

    fn left(
        &mut self,
        land: &mut Ground,
        _disk: &mut D,
        at: Address,
        _reads: &mut Steps<L>,
    ) -> Result<(), BlockFault> {
        let _ascending = self.refs().len();
        self.leave(land.blocks.peek(at))?;
        let_go(self.refs(), land, at);
        Ok(())
    }

    ghost lasts = { λ book old new before after history size backed spares stands. tt };

    ghost keeps = { λ book old new before after history space levels settled fits.
        subst (λ (h : History). IsSettled book new h) (sym history)
        (settled_still book old new (D.history before) space levels (settled fits)) };
}
