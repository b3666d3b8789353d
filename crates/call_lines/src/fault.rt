// Why a call was not made.
use qg_num::{BlockFault, NoMemory};
use std::alloc::{AllocError, AllocFailed};
use thiserror::Error;

/// Why a call was not made (this project's own).
#[derive(Clone, Copy, Debug, PartialEq, Eq, Error)]
pub enum Fault {
    /// No call of the file begins so, or it has not so many words.
    #[error("no call has these words")]
    Call,
    /// A decimal, or a group, is wanted.
    #[error("a decimal number, or LEVEL/ID, is wanted")]
    Number,
    /// What the call requires does not hold.
    #[error("what the call requires does not hold")]
    Unmet,
    /// The call answers an error where none can be wanted.
    #[error("the call failed")]
    Failed,
    /// Memory was refused.
    #[error("memory was refused")]
    NoMemory,
}

impl From<NoMemory> for Fault {
    fn from(_: NoMemory) -> Fault {
        Fault::NoMemory
    }
}

impl From<AllocError> for Fault {
    fn from(_: AllocError) -> Fault {
        Fault::NoMemory
    }
}

impl<T: Drop> From<AllocFailed<T>> for Fault {
    fn from(_: AllocFailed<T>) -> Fault {
        Fault::NoMemory
    }
}

impl From<BlockFault> for Fault {
    fn from(_: BlockFault) -> Fault {
        Fault::Failed
    }
}
