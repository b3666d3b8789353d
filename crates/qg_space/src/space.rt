// What is free of an image.
ghost use Rattle.std.specs.Prelude.{◌≡◌, ◌*◌, ◌<◌, ◌≤◌, ◌==◌, ℕ, min, take, length, IfOk, IfSome, IfNone, IsOk, OnOk};
ghost use Rattle.std.specs.Prelude.{OnErr, IsTrue};
ghost use Rattle.std.specs.List.{All, Contains, IsDistinct, list_all};
ghost use Rattle.qg_super.specs.Places.{data_begin, is_served, is_slot, sector, slot_at};
ghost use Rattle.qg_image.specs.Table.{with_number};
ghost use Rattle.qg_image.specs.Counts.{bytes_of};
ghost use Rattle.qg_space.specs.Holding.{nothing_held, AscendApart, is_free_run, first_run, has_run, with_run};
ghost use Rattle.qg_space.specs.Holding.{without_run, without_runs, is_free_slot, first_slot, free_list, free_slots};
ghost use Rattle.qg_space.specs.Holding.{has_slot, taken_slots, without_slot};

use crate::run::Run;
use crate::runs::{
    commit_runs, first_gap, has_run, packed_runs, present_bytes, present_runs, put_run,
    runs_of_both, take_out_run, take_out_runs,
};
use crate::slots::{
    Slot, address_of, commit_slots, count_present, count_unused, first_unused, first_unused_slots,
    number_of, unused_slots,
};
use qg_image::Element;
use qg_num::{Address, NoMemory, Sequence};
use qg_super::{SECTOR, Sizes};
use std::alloc::Global;
use std::marker::Model;

/// The runs of sectors and the node slots that the present state and the last commit hold (this project's own). What
/// neither holds is free.
#[derive(Drop)]
pub struct Space {
    sizes: Sizes,
    runs: Vec<Run>,
    packed: usize,
    slots: Vec<Slot>,
    unused: u64,
    first: usize,
}

impl Model for Space {
    ghost use Rattle.qg_space.specs.Holding.{Holding};

    ghost Value = { Holding };

    ghost use Rattle.qg_space.specs.Lying.{holding_of, IsSound};

    ghost view = { λ s. holding_of s.sizes s.runs.items s.slots.items };

    ghost invariant = { λ s. IsSound s.sizes s.runs.items s.packed s.slots.items s.unused s.first };
}

impl Space {
    /// Of an image with so many node slots of so many bytes, and so many data sectors of 4096 bytes, nothing is held
    /// yet.
    pub fn new(alloc: Global, slots: u64, nodesize: u32, sectors: u64) -> Result<Space, NoMemory>
        requires { IsTrue (is_served (record { nodesize = nodesize; slots = slots; sectors = sectors })) }
        ensures { IfOk result (λ space. space ≡ nothing_held (record {
          nodesize = nodesize;
          slots = slots;
          sectors = sectors;
        })) }
    {
        Ok(Space {
            sizes: Sizes {
                nodesize: nodesize as u64,
                slots,
                sectors,
            },
            runs: Vec::new(alloc),
            packed: 0,
            slots: unused_slots(alloc, slots)?,
            unused: slots,
            first: 0,
        })
    }

    /// The free run of so many sectors with the least address. There is none of no sectors.
    pub fn first_run(&self, sectors: u64) -> Option<Address>
        ensures { result ≡ first_run self.now (sectors * sector) }
    {
        if sectors == 0 || sectors > self.sizes.sectors {
            return None;
        }
        first_gap(&self.sizes, &self.runs, self.packed, sectors * SECTOR)
    }

    /// The present state takes a free run of so many sectors.
    pub fn take_run(&mut self, at: Address, sectors: u64) -> Result<(), NoMemory>
        requires { IsTrue (is_free_run self.old at (sectors * sector)) }
        ensures ok { OnOk result (self.new ≡ record self.old {
          runs = with_run (record { address = at; bytes = sectors * sector }) self.old.runs;
        }) }
        ensures err { OnErr result (self.new ≡ self.old) }
    {
        let sizes = self.sizes;
        let extent = Element {
            address: at,
            bytes: sectors * SECTOR,
        };
        let place = put_run(&sizes, &mut self.runs, extent)?;
        self.packed = packed_runs(&sizes, &self.runs, self.packed.min(place));
        Ok(())
    }

    /// The present state and the last commit hold these runs, and no others.
    pub fn hold_runs(&mut self, extents: &[Element]) -> Result<(), NoMemory>
        requires { AscendApart self.old.sizes data_begin extents.now }
        ensures ok { OnOk result (self.new ≡ record self.old { runs = extents.now; held_runs = extents.now }) }
        ensures err { OnErr result (self.new ≡ self.old) }
    {
        let (runs, packed) = runs_of_both(*self.runs.allocator(), &self.sizes, extents)?;
        self.runs = runs;
        self.packed = packed;
        Ok(())
    }

    /// The present state gives back a run of so many sectors, whole as it was taken. It is free once the last commit
    /// doesn't hold it either.
    pub fn give_run(&mut self, at: Address, sectors: u64)
        requires { IsTrue (has_run self.old at (sectors * sector)) }
        ensures { self.new ≡ record self.old { runs = without_run at (sectors * sector) self.old.runs } }
    {
        let sizes = self.sizes;
        let place = take_out_run(&sizes, &mut self.runs, at, sectors * SECTOR);
        self.packed = self.packed.min(place);
    }

    /// The present state gives back some runs, each whole as it was taken. Each is free once the last commit doesn't
    /// hold it either. More than one go by one pass over all.
    pub fn give_runs(&mut self, extents: &[Element])
        requires { All (Contains self.old.runs) extents.now }
        ensures { self.new ≡ record self.old { runs = without_runs extents.now self.old.runs } }
    {
        let sizes = self.sizes;
        self.packed = take_out_runs(&sizes, &mut self.runs, self.packed, extents);
    }

    /// Whether the present state has a run of so many sectors, whole as it was taken.
    pub fn has_run(&self, at: Address, sectors: u64) -> bool
        ensures { result ≡ has_run self.now at (sectors * sector) }
    {
        sectors <= self.sizes.sectors && has_run(&self.sizes, &self.runs, at, sectors * SECTOR)
    }

    /// The present state takes the free slot with the least address. The answer is its address, and none exactly where
    /// no slot is free.
    pub fn take_slot(&mut self) -> Result<Option<Address>, NoMemory>
        ensures slot { IfOk result (λ slot. slot ≡ first_slot self.old) }
        ensures taken { IfOk result (λ slot. IfSome slot (λ address.
            self.new ≡ record self.old { slots = with_number address self.old.slots })) }
        ensures none { IfOk result (λ slot. IfNone slot (self.new ≡ self.old)) }
        ensures err { OnErr result (self.new ≡ self.old) }
    {
        match first_unused(&self.slots, self.first) {
            None => Ok(None),
            Some(number) => {
                self.first = number;
                let address = address_of(&self.sizes, number);
                self.use_slot(number);
                Ok(Some(address))
            }
        }
    }

    /// The present state takes a free slot.
    pub fn take_slot_at(&mut self, at: Address) -> Result<(), NoMemory>
        requires { IsTrue (is_free_slot self.old at) }
        ensures sure { IsOk result }
        ensures ok { OnOk result (self.new ≡ record self.old { slots = with_number at self.old.slots }) }
        ensures err { OnErr result (self.new ≡ self.old) }
    {
        let number = number_of(&self.sizes, at);
        self.use_slot(number);
        Ok(())
    }

    /// The present state takes the free slot of a number.
    fn use_slot(&mut self, number: usize)
        requires bound { number < self.old.sizes.slots }
        requires free { IsTrue (is_free_slot self.old (slot_at self.old.sizes number)) }
        ensures { self.new ≡ record self.old { slots = with_number (slot_at self.old.sizes number) self.old.slots } }
    {
        self.slots[number].present = true;
        self.unused -= 1;
    }

    /// The present state gives back a slot. It is free once the last commit doesn't hold it either.
    pub fn give_slot(&mut self, at: Address)
        requires { IsTrue (has_slot self.old at) }
        ensures { self.new ≡ record self.old { slots = without_slot at self.old.slots } }
    {
        let number = number_of(&self.sizes, at);
        let slot = &mut self.slots[number];
        slot.present = false;
        if !slot.held {
            self.unused += 1;
            self.first = self.first.min(number);
        }
    }

    /// Whether the present state has a slot.
    pub fn has_slot(&self, at: Address) -> bool
        ensures { result ≡ has_slot self.now at }
    {
        self.sizes.is_slot(at) && self.slots[number_of(&self.sizes, at)].present
    }

    /// How many slots are free.
    pub fn free_slots(&self) -> u64
        ensures { result ≡ free_slots self.now }
    {
        self.unused
    }

    /// How many slots the present state has. Each is a slot of the image.
    pub fn taken_slots(&self) -> u64
        ensures count { result ≡ taken_slots self.now }
        ensures most { result ≤ self.now.sizes.slots }
        ensures each { (slot : ℕ) → Contains self.now.slots slot → IsTrue (is_slot self.now.sizes slot) }
    {
        count_present(&self.slots) as u64
    }

    /// How many bytes the runs have that the present state has. They lie apart.
    pub fn taken_bytes(&self) -> u64
        ensures bytes { result ≡ bytes_of self.now.runs }
        ensures most { result ≤ self.now.sizes.sectors * sector }
        ensures apart { AscendApart self.now.sizes data_begin self.now.runs }
    {
        present_bytes(&self.sizes, &self.runs)
    }

    /// The runs that the present state has, ascending.
    pub fn run_list(&self, alloc: Global) -> Result<Sequence<Element>, NoMemory>
        ensures { IfOk result (λ runs. runs ≡ self.now.runs) }
    {
        Ok(present_runs(alloc, &self.runs)?)
    }

    /// The first so many free slots, ascending; fewer exactly where there are not so many.
    pub fn free_list(&self, alloc: Global, count: u64) -> Result<Sequence<Address>, NoMemory>
        ensures first { IfOk result (λ slots. slots ≡ take count (free_list self.now)) }
        ensures apart { IfOk result (λ slots. IsDistinct (λ a b. a == b) slots) }
        ensures free { IfOk result (λ slots. IsTrue (list_all (is_free_slot self.now) slots)) }
        ensures count { IfOk result (λ slots. length slots ≡ min count (free_slots self.now)) }
    {
        let slots = first_unused_slots(alloc, &self.sizes, &self.slots, self.first, count)?;
        Ok(slots)
    }

    /// A commit was done: it holds what the present state has, and nothing else. What was given back is free.
    pub fn committed(&mut self)
        ensures { self.new ≡ record self.old { held_runs = self.old.runs; held_slots = self.old.slots } }
    {
        commit_runs(&mut self.runs);
        self.packed = packed_runs(&self.sizes, &self.runs, 0);
        commit_slots(&mut self.slots);
        self.unused = count_unused(&self.slots) as u64;
        self.first = 0;
    }
}
