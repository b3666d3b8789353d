//! Numbers of trees (on-disk format, "trees").

/// The root tree.
pub const ROOT_TREE: u64 = 1;
/// The extent tree.
pub const EXTENT_TREE: u64 = 2;
/// The top-level subvolume.
pub const TOP_LEVEL: u64 = 5;
/// The quota tree.
pub const QUOTA_TREE: u64 = 8;
/// The least number of any further subvolume.
pub const FIRST_FREE: u64 = 256;
