use qg_items::Reference;
use qg_num::Address;

/// A reference that is owed to what begins at an address (on-disk format, "backreferences").
#[derive(Clone, Copy)]
pub struct Owing {
    /// The address, in bytes.
    pub address: Address,
    /// The reference.
    pub reference: Reference,
}
