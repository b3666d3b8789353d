// What the store is asked.
use crate::{GroupId, GroupList, Ino, RootId, Which};

/// A command of a script (this project's own). Positions, lengths and sizes are in bytes.
#[derive(Drop)]
pub enum Command {
    /// Writes `len` bytes of a file from `off` on, as one new extent.
    Write {
        sub: RootId,
        ino: Ino,
        off: u64,
        len: u64,
    },
    /// Lets a range of one file share the extents of a range of another, as FICLONERANGE does.
    Clone {
        sub: RootId,
        ino: Ino,
        off: u64,
        len: u64,
        to_sub: RootId,
        to_ino: Ino,
        to_off: u64,
    },
    /// Sets a file's size.
    Truncate {
        sub: RootId,
        ino: Ino,
        size: u64,
    },
    /// Removes a file.
    Unlink {
        sub: RootId,
        ino: Ino,
    },
    /// Commits what is pending.
    Commit,
    /// Makes an empty subvolume.
    SubCreate,
    /// Makes a snapshot of a subvolume, and puts its group into these groups.
    Snap {
        sub: RootId,
        groups: GroupList,
    },
    /// Deletes a subvolume.
    Delete {
        sub: RootId,
    },
    /// Turns quota on, as `btrfs quota enable` does.
    QuotaOn,
    /// Turns quota off, as `btrfs quota disable` does.
    QuotaOff,
    /// Makes a quota group.
    GroupCreate {
        group: GroupId,
    },
    /// Removes a quota group.
    GroupDestroy {
        group: GroupId,
    },
    /// Makes one group a member of another.
    Assign {
        member: GroupId,
        parent: GroupId,
    },
    /// Ends that membership.
    Remove {
        member: GroupId,
        parent: GroupId,
    },
    /// Sets a limit of a group in bytes, or takes it away.
    Limit {
        group: GroupId,
        which: Which,
        max: Option<u64>,
    },
    /// Asks for every group's row.
    Show,
    /// Asks for a file's pieces.
    Ls {
        sub: RootId,
        ino: Ino,
    },
    /// Asks which subvolumes reach what begins at an address.
    Owners {
        address: u64,
    },
}
