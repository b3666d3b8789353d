// Why a call on quota groups could not be done.
ghost use Rattle.std.specs.Prelude.{◌≡◌};
ghost use Rattle.qg_qgroups.specs.declared.fault.HierFault.TheVariants as why;

use qg_num::NoMemory;
use std::alloc::{AllocError, AllocFailed};

/// Why a call on quota groups could not be done (btrfs-qgroup(8)). Nothing has changed then.
#[derive(Clone, Copy, Debug, PartialEq, Eq)]
pub enum HierFault {
    /// A group isn't there.
    NoGroup,
    /// The group is there already.
    GroupThere,
    /// The member's level isn't less than the parent's.
    Level,
    /// The two groups are related already.
    Related,
    /// The two groups aren't related.
    NotRelated,
    /// The group has members.
    Busy,
    /// Memory was refused.
    NoMemory,
}

impl From<NoMemory> for HierFault {
    ghost from_gives = { λ _ fault. fault ≡ why.NoMemory };

    fn from(_: NoMemory) -> HierFault {
        HierFault::NoMemory
    }
}

impl From<AllocError> for HierFault {
    ghost from_gives = { λ _ fault. fault ≡ why.NoMemory };

    fn from(_: AllocError) -> HierFault {
        HierFault::NoMemory
    }
}

impl<T: Drop> From<AllocFailed<T>> for HierFault {
    ghost from_gives = { λ _ fault. fault ≡ why.NoMemory };

    fn from(_: AllocFailed<T>) -> HierFault {
        HierFault::NoMemory
    }
}
