// The book of a tree that shares no node.
ghost use Rattle.std.specs.Prelude.{◌≡◌, ◌+◌, ◌-◌, ◌^◌, ⊤, false, min, length};
ghost use Rattle.qg_node.specs.Nodes.{header_of};
ghost use Rattle.qg_blocks.specs.Table.{with_number};
ghost use Rattle.qg_space.specs.Holding.{without_slot};
ghost use Rattle.qg_node_alloc.specs.SlotTally.{SlotTally};

use crate::known_slots::KnownSlots;
use crate::{Book, Ground};
use qg_disk::Disk;
use qg_num::{Address, BlockFault, Steps};
use qg_space::Space;
use std::marker::Model;
use std::sync::ledger::Ledger;

/// The book of a tree whose nodes no other tree reaches (this project's own): a node that is copied or left is gone,
/// and its slot is given back. It counts what it is told. A contract sees besides which slots the present state has by
/// what was told.
#[derive(Drop)]
pub struct SlotBook {
    told: u64,
    slots: KnownSlots,
}

impl Model for SlotBook {
    ghost use Rattle.std.specs.Prelude.{⊤};
    ghost use Rattle.qg_node_alloc.specs.SlotTally.{SlotTally};

    ghost Value = { SlotTally };

    ghost view = { λ b. record { told = b.told; slots = b.slots.items } };

    ghost invariant = { λ b. ⊤ };
}

impl SlotBook {
    /// It was told nothing, and the present state has its slots.
    pub fn new(space: &Space) -> SlotBook
        ensures { result ≡ record { told = 0; slots = space.now.slots } }
    {
        SlotBook {
            told: 0,
            slots: KnownSlots::of(space),
        }
    }

    /// How many things it was told, up to the last number of 64 bits.
    pub fn told(&self) -> u64
        ensures { result ≡ self.now.told }
    {
        self.told
    }

    // A node came into a slot.
    fn come(&mut self, at: Address)
        ensures { self.new ≡ record {
          told = min (self.old.told + 1) (2 ^ 64 - 1);
          slots = with_number at self.old.slots;
        } }
    {
        self.told = self.told.saturating_add(1);
        self.slots = self.slots.with_slot(&at);
    }

    // A node is gone from a slot.
    fn go(&mut self, at: Address)
        ensures { self.new ≡ record {
          told = min (self.old.told + 1) (2 ^ 64 - 1);
          slots = without_slot at self.old.slots;
        } }
    {
        self.told = self.told.saturating_add(1);
        self.slots = self.slots.without_slot(&at);
    }

    // A node was copied from one slot to another.
    fn turn(&mut self, at: Address, copy: Address)
        ensures { self.new ≡ record {
          told = min (self.old.told + 1) (2 ^ 64 - 1);
          slots = without_slot at (with_number copy self.old.slots);
        } }
    {
        self.told = self.told.saturating_add(1);
        self.slots = self.slots.with_slot(&copy);
        self.slots = self.slots.without_slot(&at);
    }
}

/// Gives back a slot, where the present state has it.
fn give_back(space: &mut Space, at: Address)
    ensures { space.new ≡ record space.old { slots = without_slot at space.old.slots } }
{
    if space.has_slot(at) {
        space.give_slot(at);
    }
}

impl<D: Disk, L: Ledger> Book<D, L> for SlotBook {
    ghost use Rattle.std.specs.Prelude.{◌≡◌, ⊤, false};
    ghost use Rattle.std.proofs.Common.{◌∙◌, ap, sym};
    ghost use Rattle.qg_space.specs.Holding.{Holding};
    ghost use Rattle.qg_node_alloc.specs.SlotTally.{FollowsSlots};

    ghost follows = { λ before log after. FollowsSlots before log after };

    ghost stands = { λ book land disk. ⊤ };

    ghost settled = { λ book land disk. book.slots ≡ land.space.slots };

    ghost shares = { λ book land disk at. false };

    ghost spent = { λ book. 0 };

    fn is_shared(
        &mut self,
        _land: &mut Ground,
        _disk: &mut D,
        _at: Address,
        _reads: &mut Steps<L>,
    ) -> Result<bool, BlockFault> {
        Ok(false)
    }

    fn copied(
        &mut self,
        land: &mut Ground,
        _disk: &mut D,
        at: Address,
        copy: Address,
        _reads: &mut Steps<L>,
    ) -> Result<(), BlockFault> {
        give_back(&mut land.space, at);
        self.turn(at, copy);
        Ok(())
    }

    fn made(
        &mut self,
        _land: &mut Ground,
        _disk: &mut D,
        at: Address,
        _reads: &mut Steps<L>,
    ) -> Result<(), BlockFault> {
        self.come(at);
        Ok(())
    }

    fn left(
        &mut self,
        land: &mut Ground,
        _disk: &mut D,
        at: Address,
        _reads: &mut Steps<L>,
    ) -> Result<(), BlockFault> {
        self.go(land.blocks.peek(at).header().address);
        land.blocks.forget(at);
        give_back(&mut land.space, at);
        Ok(())
    }

    ghost lasts = { λ book old new before after history size backed spares stands. tt };

    ghost keeps = { λ book old new before after history space levels settled.
        settled ∙ sym (ap (λ (h : Holding). h.slots) space) };
}
