use crate::places::{DATA_BEGIN, SECTOR, SLOTS_BEGIN};
use qg_num::Address;

/// How large an image is (this project's own).
#[derive(Clone, Copy, PartialEq, Eq)]
pub struct Sizes {
    /// The bytes of a node: 4096 or 16384.
    pub nodesize: u64,
    /// The number of node slots.
    pub slots: u64,
    /// The number of data sectors of 4096 bytes.
    pub sectors: u64,
}

impl Sizes {
    ghost use Rattle.std.specs.Prelude.{◌≡◌, IsTrue};
    ghost use Rattle.qg_super.specs.Places.{is_served, is_slot, total_bytes};

    /// Whether images of these sizes are served: a nodesize of 4096 with at most 16128 slots or of 16384 with at most
    /// 4032, at least 64 slots, from 16 to 16777216 sectors (this project's own).
    #[tactic(auto, unfolding(crate::specs::Places::is_served))]
    pub fn is_served(&self) -> bool
        ensures { result ≡ is_served self.now }
    {
        ((self.nodesize == 4096 && self.slots <= 16128)
            || (self.nodesize == 16384 && self.slots <= 4032))
            && 64 <= self.slots
            && 16 <= self.sectors
            && self.sectors <= 16777216
    }

    /// The bytes of an image of these sizes, from its begin to the end of the data area (this project's own).
    pub fn total_bytes(&self) -> u64
        requires { IsTrue (is_served self.now) }
        ensures { result ≡ total_bytes self.now }
    {
        DATA_BEGIN + self.sectors * SECTOR
    }

    /// Whether an address is that of a node slot (this project's own).
    #[tactic(auto, unfolding(crate::specs::Places::is_slot))]
    pub fn is_slot(&self, address: Address) -> bool
        requires { IsTrue (is_served self.now) }
        ensures { result ≡ is_slot self.now address }
    {
        let place = address.value();
        if place < SLOTS_BEGIN {
            return false;
        }
        let offset = place - SLOTS_BEGIN;
        offset % self.nodesize == 0 && offset / self.nodesize < self.slots
    }
}
