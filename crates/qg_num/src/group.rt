// Quota groups by their numbers.
ghost use Rattle.std.specs.Prelude.{◌≡◌, ◌+◌, ◌*◌, ◌^◌, ◌<◌, ◌/◌, ◌%◌, ℕ};
ghost use Rattle.std.specs.Option.{SomeIff};

use std::marker::Model;

/// How many levels there are.
const LEVELS: u64 = 1 << 16;

/// How many ids a level has.
const IDS: u64 = 1 << 48;

/// A quota group (btrfs-qgroup(8)). A contract sees the number `level * 2^48 + id`, by which groups are ordered.
#[derive(Clone, Copy, Debug, PartialEq, Eq, PartialOrd, Ord)]
pub struct GroupId {
    number: u64,
}

impl Model for GroupId {
    ghost Value = { ℕ };

    ghost view = { λ g. g.number };

    ghost invariant = { λ g. g.number < 2 ^ 64 };

    ghost inverse = { λ n. record { number = n } };
}

impl GroupId {
    /// The group of a level below 2^16 and an id below 2^48, and none for any others (btrfs-qgroup(8)).
    pub fn new(level: u64, id: u64) -> Option<GroupId>
        ensures { SomeIff result ((level < 2 ^ 16) × (id < 2 ^ 48)) (level * 2 ^ 48 + id) }
    {
        if level >= LEVELS || id >= IDS {
            return None;
        }
        Some(GroupId {
            number: level * IDS + id,
        })
    }

    /// The group of a number, as the keys of quota items have it (on-disk format, QGROUP_INFO). Each number is that of
    /// one group.
    pub fn from_number(number: u64) -> GroupId
        ensures { result ≡ number }
    {
        GroupId { number }
    }

    /// Its number, as the keys of quota items have it (on-disk format, QGROUP_INFO).
    pub fn number(self) -> u64
        ensures { result ≡ self }
    {
        self.number
    }

    /// Its level, 0 for a subvolume's own group (btrfs-qgroup(8)).
    pub fn level(self) -> u64
        ensures value { result ≡ self / 2 ^ 48 }
        ensures bound { result < 2 ^ 16 }
    {
        self.number / IDS
    }

    /// Its id, on level 0 the subvolume's number (btrfs-qgroup(8)).
    pub fn id(self) -> u64
        ensures { result ≡ self % 2 ^ 48 }
    {
        self.number % IDS
    }
}
