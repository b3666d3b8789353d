// Why a call could not be done.
ghost use Rattle.std.specs.Prelude.{◌≡◌};
ghost use Rattle.qg_num.specs.declared.fault.BlockFault.TheVariants as block;
ghost use Rattle.qg_num.specs.declared.fault.Stop.TheVariants as stop;

use crate::{Address, Rule};
use std::alloc::{AllocError, AllocFailed};

/// Memory was refused (this project's own).
#[derive(Clone, Copy, Debug, PartialEq, Eq)]
pub struct NoMemory;

impl From<AllocError> for NoMemory {
    fn from(_: AllocError) -> NoMemory {
        NoMemory
    }
}

impl<T: Drop> From<AllocFailed<T>> for NoMemory {
    fn from(_: AllocFailed<T>) -> NoMemory {
        NoMemory
    }
}

/// Why a call on the nodes of an image could not be done (this project's own).
#[derive(Clone, Copy, Debug, PartialEq, Eq)]
pub enum BlockFault {
    /// Memory was refused.
    NoMemory,
    /// The disk failed.
    Disk,
    /// What was read breaks a rule, at an address in bytes.
    Image { rule: Rule, address: Address },
}

impl From<NoMemory> for BlockFault {
    ghost from_gives = { λ _ fault. fault ≡ block.NoMemory };

    fn from(_: NoMemory) -> BlockFault {
        BlockFault::NoMemory
    }
}

impl From<AllocError> for BlockFault {
    ghost from_gives = { λ _ fault. fault ≡ block.NoMemory };

    fn from(_: AllocError) -> BlockFault {
        BlockFault::NoMemory
    }
}

impl<T: Drop> From<AllocFailed<T>> for BlockFault {
    ghost from_gives = { λ _ fault. fault ≡ block.NoMemory };

    fn from(_: AllocFailed<T>) -> BlockFault {
        BlockFault::NoMemory
    }
}

/// What stopped a store for good (this project's own).
pub type Cause = BlockFault;

/// Why a store answers no command any more (this project's own). The image is opened again after it.
#[derive(Clone, Copy, PartialEq, Eq)]
pub enum Stop {
    /// Memory was refused.
    NoMemory,
    /// The disk failed.
    Disk,
    /// What was read breaks a rule, at an address in bytes.
    Image { rule: Rule, address: Address },
    /// An earlier call stopped, for this cause.
    Aborted(Cause),
}

impl From<BlockFault> for Stop {
    ghost use Rattle.qg_num.specs.Fault.{stop_of};

    ghost from_gives = { λ fault end. end ≡ stop_of fault };

    fn from(fault: BlockFault) -> Stop {
        match fault {
            BlockFault::NoMemory => Stop::NoMemory,
            BlockFault::Disk => Stop::Disk,
            BlockFault::Image { rule, address } => Stop::Image { rule, address },
        }
    }
}

impl From<NoMemory> for Stop {
    ghost from_gives = { λ _ end. end ≡ stop.NoMemory };

    fn from(_: NoMemory) -> Stop {
        Stop::NoMemory
    }
}

impl From<AllocError> for Stop {
    ghost from_gives = { λ _ end. end ≡ stop.NoMemory };

    fn from(_: AllocError) -> Stop {
        Stop::NoMemory
    }
}

impl<T: Drop> From<AllocFailed<T>> for Stop {
    ghost from_gives = { λ _ end. end ≡ stop.NoMemory };

    fn from(_: AllocFailed<T>) -> Stop {
        Stop::NoMemory
    }
}
