ghost use Rattle.std.specs.Prelude.{◌≡◌};
ghost use Rattle.qg_commit.specs.declared.fault.MkfsFault.TheVariants.{NoMemory};
ghost use Rattle.qg_commit.specs.Fault.{mkfs_fault};

use qg_disk::DiskFault;
use qg_num::NoMemory;
use std::alloc::AllocError;
use thiserror::Error;

/// Why no image was made.
#[derive(Debug, Drop, Error)]
pub enum MkfsFault {
    /// The sizes are not served.
    #[error("the sizes are not served")]
    Size,
    /// The disk failed.
    #[error("the disk failed")]
    Disk,
    /// Memory was refused.
    #[error("memory was refused")]
    NoMemory,
}

impl From<DiskFault> for MkfsFault {
    ghost from_gives = { λ fault e. e ≡ mkfs_fault fault };

    fn from(fault: DiskFault) -> Self {
        match fault {
            DiskFault::Failed => MkfsFault::Disk,
            DiskFault::NoMemory => MkfsFault::NoMemory,
        }
    }
}

impl From<NoMemory> for MkfsFault {
    ghost from_gives = { λ _ e. e ≡ NoMemory };

    fn from(_: NoMemory) -> Self {
        MkfsFault::NoMemory
    }
}

impl From<AllocError> for MkfsFault {
    ghost from_gives = { λ _ e. e ≡ NoMemory };

    fn from(_: AllocError) -> Self {
        MkfsFault::NoMemory
    }
}
