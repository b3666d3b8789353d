use qg_extents::Extents;
use qg_image::{Element, RootPart};
use qg_num::{Address, Sequence};
use qg_qgroups::QuotaState;
use qg_super::Super;

/// What a sound image stands for, but for how its nodes are cut (this project's own). Addresses are in bytes.
#[derive(Drop)]
pub struct Image {
    /// The superblock that counts.
    pub superblock: Super,
    /// The place that does not hold the same, in bytes, if there is one.
    pub stale: Option<u64>,
    /// The subvolumes, ascending by number, with their ROOT_ITEMs.
    pub roots: Sequence<RootPart>,
    /// The quota groups, while quota is on.
    pub quota: Option<QuotaState>,
    /// Where the nodes of the root, extent and quota trees lie, in the order of the walk.
    pub others: Sequence<Address>,
    /// Where those that subvolumes reach lie, ascending.
    pub nodes: Sequence<Address>,
    /// The data extents that files name, ascending.
    pub extents: Sequence<Element>,
    /// The references that are recorded, which are those that are owed.
    pub book: Extents,
}
