ghost use Rattle.std.specs.Prelude.{◌≡◌};
ghost use Rattle.qg_script.specs.declared.fault.LineFault.TheVariants.{NoMemory};

use std::alloc::AllocError;
use thiserror::Error;

/// Why no line was read (this project's own).
#[derive(Clone, Copy, Debug, PartialEq, Eq, Error)]
pub enum LineFault {
    /// The source failed.
    #[error("the source failed")]
    Source,
    /// The line ends past the longest script.
    #[error("the script is too long")]
    TooLong,
    /// Memory was refused.
    #[error("memory was refused")]
    NoMemory,
}

impl From<AllocError> for LineFault {
    ghost from_gives = { λ _ fault. fault ≡ NoMemory };

    fn from(_: AllocError) -> LineFault {
        LineFault::NoMemory
    }
}
