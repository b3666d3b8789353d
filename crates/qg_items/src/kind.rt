//! Types of items (on-disk format, "item types").

/// A file: (inode, 1, 0).
pub const INODE_ITEM: u8 = 1;
/// A piece of a file: (inode, 108, position).
pub const EXTENT_DATA: u8 = 108;
/// A tree: (tree, 132, 0).
pub const ROOT_ITEM: u8 = 132;
/// A data extent: (address, 168, bytes).
pub const EXTENT_ITEM: u8 = 168;
/// A node: (address, 169, level).
pub const METADATA_ITEM: u8 = 169;
/// A keyed reference to a node: (address, 176, root).
pub const TREE_BLOCK_REF: u8 = 176;
/// A keyed reference to a data extent: (address, 178, number).
pub const EXTENT_DATA_REF: u8 = 178;
/// A shared reference to a node: (address, 182, parent).
pub const SHARED_BLOCK_REF: u8 = 182;
/// A shared reference to a data extent: (address, 184, parent).
pub const SHARED_DATA_REF: u8 = 184;
/// The state of quota: (0, 240, 0).
pub const QGROUP_STATUS: u8 = 240;
/// The counters of a group: (0, 242, group).
pub const QGROUP_INFO: u8 = 242;
/// The limits of a group: (0, 244, group).
pub const QGROUP_LIMIT: u8 = 244;
/// A relation of two groups, under either key: (group, 246, other).
pub const QGROUP_RELATION: u8 = 246;
