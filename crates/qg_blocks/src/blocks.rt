// The nodes of an image, by address.
ghost use Rattle.std.specs.Prelude.{◌≡◌, ◌+◌, ◌<◌, ◌≤◌, ◌≢◌, true, false, ℕ, [], length, List, Some, None};
ghost use Rattle.std.specs.Prelude.{IfOk, IsOk, OnOk, OnErr, IsSome, IsTrue, is_some, nat_eq, if◌then◌else◌, ◌==◌};
ghost use Rattle.std.specs.Borrow.{sem};
ghost use Rattle.std.specs.Option.{option_copied_mut};
ghost use Rattle.std.specs.Ordering.{nat_cmp};
ghost use Rattle.std.specs.BTreeMap.{insert_entry, is_at};
ghost use Rattle.std.specs.List.Sorted.{IsStrictlySortedBy};
ghost use Rattle.std.specs.Map.{keys_of, lookup, remove_entry};
ghost use Rattle.qg_device.specs.Cause.{HasCause};
ghost use Rattle.qg_device.specs.History.{Event, History, Recorded, content};
ghost use Rattle.qg_node.specs.Nodes.{header_of};
ghost use Rattle.qg_node.specs.declared.node.Node.{Node as NodeValue};
ghost use Rattle.qg_super.specs.Places.{is_served};
ghost use Rattle.lru.specs.LruCache.{lru_cache, promoted, put_entries};
ghost use Rattle.qg_blocks.specs.NodesInMemory.{most_clean, nothing_fresh, slots_of};
ghost use Rattle.qg_blocks.specs.Standing.{standing};
ghost use Rattle.qg_blocks.specs.NodesFound.{Answers, BreaksForCause, BreaksNone, Finds, IsAtHand, IsBacked, IsNodeAt};
ghost use Rattle.qg_blocks.specs.NodesFound.{StandsThere, StaysBacked, clean_at, first_of, found, fresh_at, held_at};
ghost use Rattle.qg_blocks.specs.NodesFound.{told};
ghost use Rattle.qg_blocks.specs.Writing.{AreWritten};

use crate::reading::read_at;
use lru::LruCache;
use qg_disk::Disk;
use qg_node::Node;
use qg_num::{Address, BlockFault, NoMemory, Sequence, Steps};
use qg_super::Sizes;
use std::alloc::Global;
use std::collections::BTreeMap;
use std::marker::Model;
use std::num::NonZeroUsize;
use std::sync::ledger::Ledger;

/// How many clean nodes are kept at most.
const MOST_CLEAN: usize = 256;

/// The nodes of an image by address (this project's own). Fresh ones, made or copied since the last commit, are all in
/// memory. Of the others, the clean ones, those used last are; any other is read from the disk when it is asked for.
#[derive(Drop)]
pub struct Blocks {
    shelf: Shelf,
}

// Where nodes lie in memory. The buffer has a node's size.
#[derive(Drop)]
struct Shelf {
    sizes: Sizes,
    fresh: BTreeMap<u64, Node>,
    clean: LruCache<u64, Node>,
    buffer: Vec<u8>,
}

impl Model for Blocks {
    ghost use Rattle.std.specs.Prelude.{◌≡◌, ◌≤◌, length, IsTrue};
    ghost use Rattle.qg_super.specs.Places.{is_served};
    ghost use Rattle.qg_blocks.specs.NodesInMemory.{Held, most_clean};

    ghost Value = { Held };

    ghost view = { λ b. record {
      draft = record { fresh = b.shelf.fresh.entries; sizes = b.shelf.sizes };
      clean = b.shelf.clean.entries;
      bound = b.shelf.clean.cap;
    } };

    ghost invariant = { λ b. IsTrue (is_served b.shelf.sizes) × (length b.shelf.buffer.items ≡ b.shelf.sizes.nodesize)
        × (b.shelf.clean.cap ≤ most_clean) };
}

impl Shelf {
    fn peek(&self, address: Address) -> &Node
        requires { IsSome (first_of (lookup (is_at (nat_cmp address)) self.now.fresh.entries)
            (lookup (nat_eq address) self.now.clean.entries)) }
        ensures { first_of (lookup (is_at (nat_cmp address)) self.now.fresh.entries)
            (lookup (nat_eq address) self.now.clean.entries) ≡ Some result.now }
    {
        match self.fresh.get(&address.value()) {
            Some(node) => node,
            None => self.peek_clean(address),
        }
    }

    fn peek_clean(&self, address: Address) -> &Node
        requires { IsSome (lookup (nat_eq address) self.now.clean.entries) }
        ensures { lookup (nat_eq address) self.now.clean.entries ≡ Some result.now }
    {
        match self.clean.peek(&address.value()) {
            Some(node) => node,
            None => unreachable!(),
        }
    }
}

impl Blocks {
    ghost use Rattle.qg_blocks.specs.Lending.{LendsFresh, LendsNode};

    /// Of an image with so many node slots of so many bytes, no node is in memory yet. At most 256 clean ones are kept.
    pub fn new(alloc: Global, nodesize: u32, slots: u64) -> Result<Blocks, NoMemory>
        requires { IsTrue (is_served (slots_of nodesize slots)) }
        ensures draft { IfOk result (λ blocks. blocks.draft ≡ nothing_fresh (slots_of nodesize slots)) }
        ensures clean { IfOk result (λ blocks. blocks.clean ≡ []) }
        ensures bound { IfOk result (λ blocks. blocks.bound ≡ most_clean) }
        ensures backed { IfOk result (λ blocks. (history : History) → IsBacked blocks history) }
    {
        Blocks::with_bound(alloc, nodesize, slots, MOST_CLEAN)
    }

    /// The same, but at most `bound` clean nodes are kept.
    pub fn with_bound(
        alloc: Global,
        nodesize: u32,
        slots: u64,
        bound: usize,
    ) -> Result<Blocks, NoMemory>
        requires served { IsTrue (is_served (slots_of nodesize slots)) }
        requires some { 1 ≤ bound }
        requires most { bound ≤ most_clean }
        ensures draft { IfOk result (λ blocks. blocks.draft ≡ nothing_fresh (slots_of nodesize slots)) }
        ensures clean { IfOk result (λ blocks. blocks.clean ≡ []) }
        ensures bound { IfOk result (λ blocks. blocks.bound ≡ bound) }
        ensures backed { IfOk result (λ blocks. (history : History) → IsBacked blocks history) }
    {
        let Some(most) = NonZeroUsize::new(bound) else {
            unreachable!()
        };
        let shelf = Shelf {
            sizes: Sizes {
                nodesize: nodesize as u64,
                slots,
                sectors: 16,
            },
            fresh: BTreeMap::new(alloc),
            clean: LruCache::new(alloc, most)?,
            buffer: vec![in alloc; 0; nodesize as usize]?,
        };
        Ok(Blocks { shelf })
    }

    /// How many bytes a node has.
    pub fn nodesize(&self) -> u32
        ensures { result ≡ self.now.draft.sizes.nodesize }
    {
        self.shelf.sizes.nodesize as u32
    }

    /// How many clean nodes are in memory.
    pub fn cached(&self) -> usize
        ensures count { result ≡ length self.now.clean }
        ensures bound { result ≤ self.now.bound }
        ensures most { result ≤ most_clean }
    {
        self.shelf.clean.len()
    }

    /// Whether the node at an address is fresh.
    pub fn is_fresh(&self, address: Address) -> bool
        ensures { result ≡ is_some (fresh_at self.now.draft address) }
    {
        self.shelf.fresh.contains_key(&address.value())
    }

    /// The addresses of the fresh nodes, which are those not yet written, ascending.
    pub fn dirty(&self) -> Result<Sequence<Address>, NoMemory>
        ensures addresses { IfOk result (λ addresses. addresses ≡ keys_of self.now.draft.fresh) }
        ensures ascending { IfOk result (λ addresses. IsStrictlySortedBy nat_cmp addresses) }
    {
        let mut addresses = Sequence::new(*self.shelf.buffer.allocator());
        for address in self.shelf.fresh.keys() {
            addresses.push(Address::new(*address))?;
        }
        Ok(addresses)
    }

    /// Sees to it that the node at an address is in memory, and is the last used one where it is not fresh. `peek` then
    /// lends it. Each call is one step.
    ///
    /// It may put out the clean node that was not used for longest. An address that has no slot inside the disk breaks
    /// rule `slot`.
    pub fn load<D: Disk, L: Ledger>(
        &mut self,
        disk: &mut D,
        address: Address,
        reads: &mut Steps<L>,
    ) -> Result<(), BlockFault>
        requires backed { IsBacked self.old (D.history disk.old) }

        // What is then in memory.
        ensures stays { StaysBacked self.old self.new (D.history disk.new) }
        ensures lent { OnOk result (IsAtHand self.new self.old.draft (D.history disk.old) address) }
        ensures again { IsSome (held_at self.old address)
            → IsOk result × (held_at self.new address ≡ held_at self.old address) }
        ensures err { OnErr result (self.new ≡ self.old) }

        // Answers have their causes, and the disk is as it was.
        ensures answers { (events : List Event) → D.history disk.old ≡ Recorded events
            → Answers result address (found self.old.draft (content events) address) }
        ensures broken { BreaksForCause result self.old.draft.sizes (D.size disk.old) address }
        ensures sound { (node : NodeValue) → told self.old.draft (D.history disk.old) address ≡ Some node
            → BreaksNone result }
        ensures cause { HasCause BlockFault.Disk (D.faults disk.old) (D.faults disk.new) result }
        ensures disk { (D.history disk.new ≡ D.history disk.old) × (D.size disk.new ≡ D.size disk.old) }
        ensures reads { reads.new ≡ reads.old + 1 }
    {
        reads.tick();
        if self.is_fresh(address) {
            return Ok(());
        }
        if self.touch(address) {
            return Ok(());
        }
        self.fetch(disk, address)
    }

    // Reads a node, and puts it among the clean ones.
    fn fetch<D: Disk>(&mut self, disk: &mut D, address: Address) -> Result<(), BlockFault>
        requires backed { IsBacked self.old (D.history disk.old) }
        requires other { fresh_at self.old.draft address ≡ None }
        ensures stays { StaysBacked self.old self.new (D.history disk.new) }
        ensures held { OnOk result (IsSome (held_at self.new address)) }
        ensures err { OnErr result (self.new ≡ self.old) }
        ensures answers { (events : List Event) → D.history disk.old ≡ Recorded events
            → Answers result address (standing self.old.draft.sizes (content events) address) }
        ensures broken { BreaksForCause result self.old.draft.sizes (D.size disk.old) address }
        ensures cause { HasCause BlockFault.Disk (D.faults disk.old) (D.faults disk.new) result }
        ensures disk { (D.history disk.new ≡ D.history disk.old) × (D.size disk.new ≡ D.size disk.old) }
    {
        let node = self.read(disk, address)?;
        self.keep(address, node)?;
        Ok(())
    }

    // The node that stands at an address of the disk.
    fn read<D: Disk>(&mut self, disk: &mut D, address: Address) -> Result<Node, BlockFault>
        ensures found { (events : List Event) → D.history disk.old ≡ Recorded events
            → Finds result address (standing self.old.draft.sizes (content events) address) }
        ensures kept { IfOk result (λ node. IsNodeAt self.old.draft.sizes.nodesize address node) }
        ensures broken { BreaksForCause result self.old.draft.sizes (D.size disk.old) address }
        ensures same { self.new ≡ self.old }
        ensures history { D.history disk.new ≡ D.history disk.old }
        ensures size { D.size disk.new ≡ D.size disk.old }
        ensures cause { HasCause BlockFault.Disk (D.faults disk.old) (D.faults disk.new) result }
    {
        let alloc = *self.shelf.buffer.allocator();
        read_at(
            alloc,
            disk,
            &self.shelf.sizes,
            &mut self.shelf.buffer,
            address,
        )
    }

    // Whether there is a clean node at an address, which is then the one used last.
    fn touch(&mut self, address: Address) -> bool
        ensures found { result ≡ is_some (clean_at self.old address) }
        ensures same { self.new ≡ record self.old { clean = promoted (nat_eq address) self.old.clean } }
    {
        self.shelf.clean.get(&address.value()).is_some()
    }

    // Puts a node among the clean ones. It may take the place of another.
    fn keep(&mut self, address: Address, node: Node) -> Result<(), NoMemory>
        ensures ok { OnOk result
            (self.new ≡ record self.old {
              clean = put_entries nat_eq (lru_cache self.old.clean self.old.bound) address
                  node;
            }) }
        ensures err { OnErr result (self.new ≡ self.old) }
        ensures draft { self.new.draft ≡ self.old.draft }
        ensures bound { self.new.bound ≡ self.old.bound }
        ensures backed { (history : History) → fresh_at self.old.draft address ≡ None
            → IsNodeAt self.old.draft.sizes.nodesize address node
            → StandsThere self.old.draft.sizes history address node
            → IsBacked self.old history → IsBacked self.new history }
    {
        self.shelf.clean.put(address.value(), node)?;
        Ok(())
    }

    /// The node in memory at an address, which `load` or `put_fresh` saw to.
    pub fn peek(&self, address: Address) -> &Node
        requires { IsSome (held_at self.now address) }
        ensures { held_at self.now address ≡ Some result.now }
    {
        self.shelf.peek(address)
    }

    // The fresh node at an address, if there is one, to be written to.
    fn fresh_mut(&mut self, address: Address) -> Option<&mut Node>
        ensures* writes_back { sem 𝓛 (LendsFresh self.entry address result) }
        ensures value { option_copied_mut result ≡ fresh_at self.old.draft address }
    {
        self.shelf.fresh.get_mut(&address.value())
    }

    /// The fresh node at an address, to be written to.
    pub fn get_mut(&mut self, address: Address) -> &mut Node
        requires { IsSome (fresh_at self.old.draft address) }
        ensures* writes_back { sem 𝓛 (LendsNode self.entry address result) }
        ensures value { fresh_at self.old.draft address ≡ Some result.now }
    {
        match self.fresh_mut(address) {
            Some(node) => node,
            None => unreachable!(),
        }
    }

    /// Puts a fresh node at the address that its header names, in the place of what was there.
    pub fn put_fresh(&mut self, node: Node) -> Result<(), NoMemory>
        ensures draft { OnOk result (self.new.draft ≡ record self.old.draft {
          fresh = insert_entry nat_cmp self.old.draft.fresh (header_of node).address node;
        }) }
        ensures told { OnOk result ((history : History) (at : ℕ) → told self.new.draft history at
            ≡ (if at == (header_of node).address then Some node else told self.old.draft history at)) }
        ensures err { OnErr result (self.new ≡ self.old) }
        ensures backed { (history : History) → IsBacked self.old history → IsBacked self.new history }
        ensures bound { self.new.bound ≡ self.old.bound }
    {
        let _count = self.shelf.clean.len();
        let address = node.header().address.value();
        self.shelf.fresh.insert(address, node)?;
        self.shelf.clean.pop(&address);
        Ok(())
    }

    /// Forgets what is in memory at an address.
    pub fn forget(&mut self, address: Address)
        ensures draft { self.new.draft
            ≡ record self.old.draft { fresh = remove_entry (is_at (nat_cmp address)) self.old.draft.fresh } }
        ensures gone { held_at self.new address ≡ None }
        ensures told { (history : History) (at : ℕ) → at ≢ address
            → told self.new.draft history at ≡ told self.old.draft history at }
        ensures others { (at : ℕ) → clean_at self.old at ≡ None → clean_at self.new at ≡ None }
        ensures backed { (history : History) → IsBacked self.old history → IsBacked self.new history }
        ensures bound { self.new.bound ≡ self.old.bound }
    {
        let _count = self.shelf.clean.len();
        self.shelf.fresh.remove(&address.value());
        self.shelf.clean.pop(&address.value());
    }

    /// The fresh nodes were written to a disk, and are clean from now on. As many of them stay in memory as the bound
    /// lets, and memory.
    pub fn written<D: Disk>(&mut self, disk: &D)
        requires backed { IsBacked self.old (D.history disk.now) }
        requires written { AreWritten self.old.draft (D.history disk.now) }
        ensures draft { self.new.draft ≡ nothing_fresh self.old.draft.sizes }
        ensures told { (events : List Event) (address : ℕ) → D.history disk.now ≡ Recorded events
            → told self.new.draft (D.history disk.now) address ≡ told self.old.draft (D.history disk.now) address }
        ensures backed { IsBacked self.new (D.history disk.now) }
        ensures bound { self.new.bound ≡ self.old.bound }
    {
        while self.settle() {}
    }

    // Takes one fresh node for a clean one, if there is one.
    fn settle(&mut self) -> bool
        ensures fewer { result ≡ true → length self.new.draft.fresh < length self.old.draft.fresh }
        ensures last { result ≡ false → self.new.draft.fresh ≡ [] }
        ensures sizes { self.new.draft.sizes ≡ self.old.draft.sizes }
        ensures bound { self.new.bound ≡ self.old.bound }
        ensures backed { (history : History) → IsBacked self.old history → AreWritten self.old.draft history
            → IsBacked self.new history }
        ensures written { (history : History) → AreWritten self.old.draft history
            → AreWritten self.new.draft history }
    {
        match self.shelf.fresh.pop_first() {
            Some((address, node)) => {
                let _ = self.keep(Address::new(address), node);
                true
            }
            None => false,
        }
    }
}
