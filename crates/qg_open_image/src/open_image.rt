// What a store keeps.
ghost use Rattle.std.specs.Prelude.{◌≡◌, ◌+◌, ◌<◌};
ghost use Rattle.qg_extents.specs.Table.{IsTable};

use qg_fs_laws::fs_tree::FsTree;
use qg_num::{Generation, RootId, Sequence};
use qg_qgroups::QuotaState;
use qg_super::Super;
use std::alloc::Global;

/// What is kept of a subvolume beside its tree (this project's own).
#[derive(Clone, Copy, Drop)]
pub struct KeptSubvolume {
    /// The generation of its last snapshot, 0 where there is none.
    pub last_snapshot: Generation,
}

/// The last commit's superblock, the subvolumes and the groups, the subvolumes' trees as they are now, and how much is
/// pending (this project's own).
///
/// The trees have with them what is free of the image and what the last commit holds, and the references with those
/// that the last commit recorded. Of their nodes only fresh ones are in memory, and some clean ones.
#[derive(Drop)]
pub struct OpenImage {
    /// Where its lists take their memory.
    pub alloc: Global,
    /// The superblock of the last commit.
    pub superblock: Super,
    /// The subvolumes, by number.
    pub snapshots: Sequence<(RootId, KeptSubvolume)>,
    /// Quota, with the counters of the last commit and what is held for what is pending; none while it is off.
    pub quota: Option<QuotaState>,
    /// The trees of the subvolumes, one of them at hand.
    pub fs: FsTree,
    /// How many file commands are pending.
    pub pending: u64,
}

/// One file command more is pending, which reserves nothing.
pub fn count_pending(kept: &mut OpenImage)
    requires few { kept.old.pending < 65536 }
    ensures rest { kept.new ≡ record kept.old { pending = kept.old.pending + 1 } }
    ensures table { IsTable kept.new.fs.refs.refs }
{
    let _ascending = kept.fs.refs.refs().len();
    kept.pending += 1;
}
