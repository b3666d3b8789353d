// Why a call on a source or a sink could not be done.
ghost use Rattle.std.specs.Prelude.{◌≡◌};
ghost use Rattle.qg_edge.specs.declared.fault.EdgeFault.TheVariants.{NoMemory};

use std::alloc::{AllocError, AllocFailed};

/// Why a source or a sink could not do what it was asked (this project's own).
#[derive(Clone, Copy, Debug, PartialEq, Eq)]
pub enum EdgeFault {
    /// The object failed, and counted a fault.
    Failed,
    /// Memory was refused, and the object's bytes are unchanged. Only an object in memory answers it.
    NoMemory,
}

impl From<AllocError> for EdgeFault {
    ghost from_gives = { λ _ fault. fault ≡ NoMemory };

    fn from(_: AllocError) -> Self {
        EdgeFault::NoMemory
    }
}

impl<T: Drop> From<AllocFailed<T>> for EdgeFault {
    ghost from_gives = { λ _ fault. fault ≡ NoMemory };

    fn from(_: AllocFailed<T>) -> Self {
        EdgeFault::NoMemory
    }
}
