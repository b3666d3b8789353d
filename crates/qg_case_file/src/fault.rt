// Why a file of cases was not read.
ghost use Rattle.std.specs.Prelude.{◌≡◌};
ghost use Rattle.qg_case_file.specs.declared.fault.Complaint.TheVariants as complaint;

use std::alloc::{AllocError, AllocFailed};
use thiserror::Error;

/// Memory was refused (this project's own).
#[derive(Clone, Copy, PartialEq, Eq)]
pub struct NoMemory;

impl From<AllocError> for NoMemory {
    fn from(_: AllocError) -> NoMemory {
        NoMemory
    }
}

impl<T: Drop> From<AllocFailed<T>> for NoMemory {
    fn from(_: AllocFailed<T>) -> NoMemory {
        NoMemory
    }
}

/// What is wrong with a line (this project's own).
#[derive(Clone, Copy, Debug, PartialEq, Eq, Error)]
pub enum Complaint {
    /// It begins with a word that no line begins with.
    #[error("no line begins with this word")]
    Word,
    /// A decimal, or `each`, is wanted.
    #[error("a decimal number is wanted here")]
    Number,
    /// Bytes in hex are wanted.
    #[error("bytes in hex are wanted here")]
    Hex,
    /// A backslash stands before neither `n` nor `x` and two hex digits.
    #[error("a backslash stands before n, or x and two hex digits")]
    Escape,
    /// There is no run to which it belongs.
    #[error("no run stands before it")]
    NoRun,
    /// A word for what a crash does is wanted.
    #[error("old, new or a decimal number is wanted here")]
    Tear,
    /// There are no crashes to which it belongs.
    #[error("no crashes stand before it")]
    NoCrashes,
    /// There is no state to which it belongs.
    #[error("no state stands before it")]
    NoState,
    /// It stands behind a step.
    #[error("it stands only before a part's first step")]
    Late,
    /// Memory was refused.
    #[error("memory was refused")]
    NoMemory,
}

/// Why a file was not read (this project's own).
#[derive(Clone, Copy, Debug, PartialEq, Eq, Error)]
#[error("line {line}: {complaint}")]
pub struct CaseFault {
    /// The number of the line, from 1 on.
    pub line: u64,
    /// What is wrong with it.
    pub complaint: Complaint,
}

impl From<AllocError> for Complaint {
    ghost from_gives = { λ _ e. e ≡ complaint.NoMemory };

    fn from(_: AllocError) -> Complaint {
        Complaint::NoMemory
    }
}

impl<T: Drop> From<AllocFailed<T>> for Complaint {
    ghost from_gives = { λ _ e. e ≡ complaint.NoMemory };

    fn from(_: AllocFailed<T>) -> Complaint {
        Complaint::NoMemory
    }
}
