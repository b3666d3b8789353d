// Why quota items are refused.
ghost use Rattle.std.specs.Prelude.{◌≡◌};

use qg_num::{NoMemory, Rule};
use std::alloc::AllocError;

/// Why quota items are refused (this project's own).
#[derive(Clone, Copy, Debug, PartialEq, Eq)]
pub enum QuotaFault {
    /// They break a rule.
    Rule(Rule),
    /// Memory was refused.
    NoMemory,
}

impl From<NoMemory> for QuotaFault {
    ghost use Rattle.qg_quota.specs.declared.fault.QuotaFault.TheVariants as fault;

    ghost from_gives = { λ _ e. e ≡ fault.NoMemory };

    fn from(_: NoMemory) -> QuotaFault {
        QuotaFault::NoMemory
    }
}

impl From<AllocError> for QuotaFault {
    ghost use Rattle.qg_quota.specs.declared.fault.QuotaFault.TheVariants as fault;

    ghost from_gives = { λ _ e. e ≡ fault.NoMemory };

    fn from(_: AllocError) -> QuotaFault {
        QuotaFault::NoMemory
    }
}
