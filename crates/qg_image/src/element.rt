use qg_num::Address;

/// A data extent, or a node (btrfs-qgroup(8), "extent").
#[derive(Clone, Copy, PartialEq, Eq)]
pub struct Element {
    /// Where it lies, in bytes.
    pub address: Address,
    /// Its length in bytes.
    pub bytes: u64,
}
