// Why counters could not be kept up with a change of owners.
ghost use Rattle.std.specs.Prelude.{◌≡◌};
ghost use Rattle.qg_account.specs.declared.fault.CounterFault.TheVariants as why;

use qg_num::NoMemory;
use std::alloc::{AllocError, AllocFailed};

/// Why the counters of quota groups could not be kept up with a change of owners (btrfs-qgroup(8)).
#[derive(Clone, Copy, Debug, PartialEq, Eq)]
pub enum CounterFault {
    /// Memory was refused.
    NoMemory,
    /// A counter hasn't the bytes that it is to lose, or has no room for those that it is to gain.
    Broken,
}

impl From<NoMemory> for CounterFault {
    ghost from_gives = { λ _ fault. fault ≡ why.NoMemory };

    fn from(_: NoMemory) -> CounterFault {
        CounterFault::NoMemory
    }
}

impl From<AllocError> for CounterFault {
    ghost from_gives = { λ _ fault. fault ≡ why.NoMemory };

    fn from(_: AllocError) -> CounterFault {
        CounterFault::NoMemory
    }
}

impl<T: Drop> From<AllocFailed<T>> for CounterFault {
    ghost from_gives = { λ _ fault. fault ≡ why.NoMemory };

    fn from(_: AllocFailed<T>) -> CounterFault {
        CounterFault::NoMemory
    }
}
