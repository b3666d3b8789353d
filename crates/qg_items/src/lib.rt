//! The bodies of items, read and written, and the types under which they stand (on-disk format, "item types").
//!
//! A body is read as nothing exactly where its length or a constant byte differs. Numbers of fields, as generations and
//! addresses, are not judged here.
#![tactic(auto)]

mod extent;
mod file;
pub mod kind;
mod laws;
mod quota;
mod root;
pub mod tree;

pub use extent::{
    EXTENT_DATA_REF_BYTES, EXTENT_ITEM_BYTES, ExtentDataRef, ExtentItem, Reference,
    SHARED_DATA_REF_BYTES, SharedDataRef, read_data_ref, read_extent, read_shared_data_ref,
    write_data_ref, write_extent, write_shared_data_ref,
};
pub use file::{
    EXTENT_DATA_BYTES, ExtentData, INODE_ITEM_BYTES, InodeItem, read_extent_data, read_inode,
    write_extent_data, write_inode,
};
pub use laws::round_trips;
pub use quota::{
    QGROUP_INFO_BYTES, QGROUP_LIMIT_BYTES, QGROUP_STATUS_BYTES, QgroupInfo, QgroupLimit,
    QgroupStatus, read_info, read_limit, read_status, write_info, write_limit, write_status,
};
pub use root::{ROOT_ITEM_BYTES, RootItem, read_root, write_root};
