// What the store answers to a command.
use crate::{Address, Counters, Generation, GroupId, OwnerList, Pieces, Refusal, RootId, Rows};

/// A quota group with its stored counters and its limits, all in bytes (`btrfs qgroup show`).
#[derive(Clone, Copy, PartialEq, Eq)]
pub struct Row {
    /// The group.
    pub group: GroupId,
    /// Its stored counters, in bytes.
    pub counters: Counters,
    /// The limit on referenced bytes, if one is set.
    pub max_rfer: Option<u64>,
    /// The limit on exclusive bytes, if one is set.
    pub max_excl: Option<u64>,
}

/// What a command was answered (this project's own).
#[derive(Drop)]
pub enum Answer {
    /// The command was done.
    Done,
    /// The generation that is committed now.
    Commit(Generation),
    /// The subvolume that was made.
    Sub(RootId),
    /// The address of the extent that was written.
    Extent(Address),
    /// A row for each group, ascending by number.
    Shown(Rows),
    /// A file's size in bytes and its pieces, ascending by position.
    File { size: u64, pieces: Pieces },
    /// The subvolumes that reach an address, ascending.
    Owners(OwnerList),
    /// Why nothing was done.
    Refused(Refusal),
}
