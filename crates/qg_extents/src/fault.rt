// Why a book could not be read.
use qg_num::{Address, NoMemory as Refused};

/// Why a book could not be read (this project's own).
#[derive(Clone, Copy, PartialEq, Eq)]
pub enum RefsFault {
    /// Memory was refused.
    NoMemory,
    /// The parts at this address, in bytes, are not what a book may have there: rule `refs` is broken.
    Broken(Address),
}

impl From<Refused> for RefsFault {
    ghost use Rattle.std.specs.Prelude.{◌≡◌};
    ghost use Rattle.qg_extents.specs.declared.fault.RefsFault.TheVariants as fault;

    ghost from_gives = { λ _ given. given ≡ fault.NoMemory };

    fn from(_: Refused) -> RefsFault {
        RefsFault::NoMemory
    }
}
