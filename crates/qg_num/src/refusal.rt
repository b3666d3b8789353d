use crate::{GroupId, Which};

/// Why a command is refused (this project's own). A refused command changes nothing.
#[derive(Clone, Copy, PartialEq, Eq)]
pub enum Refusal {
    /// There is no such subvolume.
    NoSub,
    /// There is no such file there.
    NoFile,
    /// A position, length or size is no multiple of 4096 bytes, or a length is 0.
    Align,
    /// An end or a size is past 1099511627776 bytes, or a write is longer than 134217728 bytes.
    Far,
    /// The source range ends past the source's size.
    Source,
    /// Both ranges are of one file and share a byte.
    Overlap,
    /// The reservation passes this limit of this group.
    Quota { group: GroupId, which: Which },
    /// No run of free sectors is that long.
    NoRun,
    /// Fewer slots are free than are needed.
    NoNodes { free: u64, need: u64 },
    /// Quota is off.
    NoQuota,
    /// Quota is on.
    QuotaOn,
    /// There is no such group.
    NoGroup,
    /// The group is there already.
    GroupThere,
    /// The group's level is not one that the command takes.
    Level,
    /// The relation is there already.
    Related,
    /// There is no such relation.
    NotRelated,
    /// The group has members, or is that of a live subvolume.
    Busy,
    /// The top-level subvolume is not deleted.
    TopLevel,
    /// There would be more than 4096 live subvolumes, 4096 groups, 16384 relations or 65536 pending
    /// file commands, or a subvolume with the number 2^48.
    TooMany,
    /// The command would commit, and the committed generation is greater than 2^63.
    NoGeneration,
}
