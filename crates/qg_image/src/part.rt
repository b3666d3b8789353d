// What the items of each tree say (on-disk format, "item types").
use qg_items::{ExtentItem, InodeItem, QgroupInfo, QgroupLimit, QgroupStatus, Reference, RootItem};
use qg_num::{Address, GroupId, Ino, Piece, RootId};

/// An item of a subvolume's tree (on-disk format, INODE_ITEM and EXTENT_DATA).
#[derive(Clone, Copy)]
pub enum FilePart {
    /// A file.
    Inode { ino: Ino, inode: InodeItem },
    /// A piece of one.
    PieceOf { ino: Ino, piece: Piece },
}

/// An item of the root tree: a tree's number and its root (on-disk format, ROOT_ITEM).
pub type RootPart = (RootId, RootItem);

/// An item of the extent tree (on-disk format, EXTENT_ITEM and what follows it).
#[derive(Clone, Copy)]
pub enum ExtentPart {
    /// The record of a data extent, with its address and length in bytes.
    DataRecord {
        address: Address,
        bytes: u64,
        extent: ExtentItem,
    },
    /// The record of a node, with its address in bytes and its level.
    NodeRecord {
        address: Address,
        level: u64,
        extent: ExtentItem,
    },
    /// A reference to what lies at an address, with its count.
    Referenced {
        address: Address,
        reference: Reference,
        count: u32,
    },
}

/// An item of the quota tree (on-disk format, QGROUP_STATUS and what follows it).
#[derive(Clone, Copy)]
pub enum QuotaPart {
    /// The state of quota.
    Status { status: QgroupStatus },
    /// A group's counters.
    Info { group: GroupId, info: QgroupInfo },
    /// A group's limits.
    Limits { group: GroupId, limit: QgroupLimit },
    /// One end of a relation: its item's key names the two groups in this order.
    Relation { group: GroupId, other: GroupId },
}
