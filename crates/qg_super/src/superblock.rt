use crate::sizes::Sizes;
use qg_num::{Address, Generation};

/// A superblock's fields that are not constant (on-disk format, "superblock").
#[derive(Clone, Copy, PartialEq, Eq)]
pub struct Super {
    /// The generation of the commit, from 1 to 2^64 - 2.
    pub generation: Generation,
    /// The address of the root tree's root node, in bytes.
    pub root: Address,
    /// The bytes of a node: 4096 or 16384.
    pub nodesize: u32,
    /// The number of node slots.
    pub slots: u64,
    /// The number of data sectors of 4096 bytes.
    pub sectors: u64,
    /// The format of the image: 1.
    pub format: u32,
}

impl Super {
    ghost use Rattle.std.specs.Prelude.{◌≡◌};
    ghost use Rattle.qg_super.specs.SuperText.{is_super, same_super, sizes_of};

    /// The sizes of its image.
    pub fn sizes(&self) -> Sizes
        ensures { result ≡ sizes_of self.now }
    {
        Sizes {
            nodesize: u64::from(self.nodesize),
            slots: self.slots,
            sectors: self.sectors,
        }
    }

    /// Whether a superblock may have these fields: a generation from 1 to 2^64 - 2, sizes that are served, and format 1
    /// (on-disk format, "superblock"; the ranges are this project's own).
    #[tactic(auto, unfolding(crate::specs::SuperText::is_super))]
    pub fn is_super(&self) -> bool
        ensures { result ≡ is_super self.now }
    {
        if !self.sizes().is_served() || self.format != 1 {
            return false;
        }
        // Any root fits its field: a proof knows a number's range once it is read.
        let _root = self.root.value();
        let generation = self.generation.value();
        1 <= generation && generation < u64::MAX
    }

    /// Whether two superblocks are the same but for their places and checksums (this project's own).
    pub fn is_same(&self, other: &Super) -> bool
        ensures { result ≡ same_super self.now other.now }
    {
        self == other
    }
}
