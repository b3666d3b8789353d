// Why a call of a disk was not done.
ghost use Rattle.std.specs.Prelude.{◌≡◌};
ghost use Rattle.qg_disk.specs.declared.fault.DiskFault.TheVariants.{NoMemory};

use std::alloc::{AllocError, AllocFailed};

/// Why a call of a disk was not done (this project's own).
#[derive(Clone, Copy, Debug, PartialEq, Eq)]
pub enum DiskFault {
    /// The device failed. The disk counts these.
    Failed,
    /// Memory was refused, and the disk is as it was.
    NoMemory,
}

impl From<AllocError> for DiskFault {
    ghost from_gives = { λ _ fault. fault ≡ NoMemory };

    fn from(_: AllocError) -> Self {
        DiskFault::NoMemory
    }
}

impl<T: Drop> From<AllocFailed<T>> for DiskFault {
    ghost from_gives = { λ _ fault. fault ≡ NoMemory };

    fn from(_: AllocFailed<T>) -> Self {
        DiskFault::NoMemory
    }
}
