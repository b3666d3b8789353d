// Numbers of one kind each. A contract sees the number.
ghost use Rattle.std.specs.Prelude.{◌≡◌, ℕ};

use std::marker::Model;

/// A place in the image, in bytes from its start (this project's own; on-disk format, "logical address").
#[derive(Clone, Copy, Debug, PartialEq, Eq, PartialOrd, Ord)]
pub struct Address {
    number: u64,
}

impl Model for Address {
    ghost Value = { ℕ };

    ghost view = { λ a. a.number };

    ghost inverse = { λ n. record { number = n } };
}

impl Address {
    /// The address of a place.
    pub fn new(number: u64) -> Address
        ensures { result ≡ number }
    {
        Address { number }
    }

    /// Its place, in bytes.
    pub fn value(self) -> u64
        ensures { result ≡ self }
    {
        self.number
    }
}

/// The number of a tree (on-disk format, ROOT_ITEM).
#[derive(Clone, Copy, PartialEq, Eq, PartialOrd, Ord)]
pub struct RootId {
    number: u64,
}

impl Model for RootId {
    ghost Value = { ℕ };

    ghost view = { λ a. a.number };

    ghost inverse = { λ n. record { number = n } };
}

impl RootId {
    /// The tree of a number.
    pub fn new(number: u64) -> RootId
        ensures { result ≡ number }
    {
        RootId { number }
    }

    /// Its number.
    pub fn value(self) -> u64
        ensures { result ≡ self }
    {
        self.number
    }
}

/// The number of a file in its subvolume (on-disk format, INODE_ITEM).
#[derive(Clone, Copy, PartialEq, Eq, PartialOrd, Ord)]
pub struct Ino {
    number: u64,
}

impl Model for Ino {
    ghost Value = { ℕ };

    ghost view = { λ a. a.number };

    ghost inverse = { λ n. record { number = n } };
}

impl Ino {
    /// The file of a number.
    pub fn new(number: u64) -> Ino
        ensures { result ≡ number }
    {
        Ino { number }
    }

    /// Its number.
    pub fn value(self) -> u64
        ensures { result ≡ self }
    {
        self.number
    }
}

/// The number of a commit (on-disk format, "generation").
#[derive(Clone, Copy, PartialEq, Eq, PartialOrd, Ord)]
pub struct Generation {
    number: u64,
}

impl Model for Generation {
    ghost Value = { ℕ };

    ghost view = { λ a. a.number };

    ghost inverse = { λ n. record { number = n } };
}

impl Generation {
    /// The commit of a number.
    pub fn new(number: u64) -> Generation
        ensures { result ≡ number }
    {
        Generation { number }
    }

    /// Its number.
    pub fn value(self) -> u64
        ensures { result ≡ self }
    {
        self.number
    }
}
