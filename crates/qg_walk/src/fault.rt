// Why an image was not opened.
ghost use Rattle.std.specs.Prelude.{◌≡◌, Some};
ghost use Rattle.qg_walk.specs.Fault.{failure_of, fault_of_disk};
ghost use Rattle.qg_walk.specs.declared.fault.OpenFault.TheVariants as opening;

use qg_disk::DiskFault;
use qg_image::Failure;
use qg_num::{Address, GroupId, NoMemory, Rule, Which};
use std::alloc::{AllocError, AllocFailed};
use thiserror::Error;

/// Why an image, or one tree of it, was not opened (this project's own).
#[derive(Clone, Copy, Debug, PartialEq, Eq, Error)]
pub enum OpenFault {
    /// It breaks a rule, at an address in bytes.
    #[error("a rule is broken")]
    Broken {
        rule: Rule,
        address: Address,
    },
    /// A group's stored counter is not the direct count, both in bytes.
    #[error("a stored counter is not the direct count")]
    Differs {
        group: GroupId,
        which: Which,
        stored: u64,
        counted: u64,
    },
    /// The disk failed.
    #[error("the disk failed")]
    Disk,
    /// Memory was refused.
    #[error("memory was refused")]
    NoMemory,
}

impl From<Failure> for OpenFault {
    ghost from_gives = { λ failure fault. failure_of fault ≡ Some failure };

    fn from(failure: Failure) -> Self {
        match failure {
            Failure::Broken { rule, address } => OpenFault::Broken { rule, address },
            Failure::Differs {
                group,
                which,
                stored,
                counted,
            } => OpenFault::Differs {
                group,
                which,
                stored,
                counted,
            },
        }
    }
}

impl From<DiskFault> for OpenFault {
    ghost from_gives = { λ given fault. fault ≡ fault_of_disk given };

    fn from(fault: DiskFault) -> Self {
        match fault {
            DiskFault::Failed => OpenFault::Disk,
            DiskFault::NoMemory => OpenFault::NoMemory,
        }
    }
}

impl From<NoMemory> for OpenFault {
    ghost from_gives = { λ _ fault. fault ≡ opening.NoMemory };

    fn from(_: NoMemory) -> Self {
        OpenFault::NoMemory
    }
}

impl From<AllocError> for OpenFault {
    ghost from_gives = { λ _ fault. fault ≡ opening.NoMemory };

    fn from(_: AllocError) -> Self {
        OpenFault::NoMemory
    }
}

impl<T: Drop> From<AllocFailed<T>> for OpenFault {
    ghost from_gives = { λ _ fault. fault ≡ opening.NoMemory };

    fn from(_: AllocFailed<T>) -> Self {
        OpenFault::NoMemory
    }
}
