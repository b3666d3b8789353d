/// A quota group's two counters, in bytes (btrfs-qgroup(8), "rfer" and "excl").
#[derive(Clone, Copy, PartialEq, Eq)]
pub struct Counters {
    /// The bytes that the group's members reach.
    pub rfer: u64,
    /// The bytes of those that nobody else reaches.
    pub excl: u64,
}

/// Which of a group's two counters, or which of its two limits (btrfs-qgroup(8)).
#[derive(Clone, Copy, Debug, PartialEq, Eq)]
pub enum Which {
    /// Referenced bytes.
    Rfer,
    /// Exclusive bytes.
    Excl,
}
