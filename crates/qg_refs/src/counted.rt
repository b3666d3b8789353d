// A reference with its count.
ghost use Rattle.std.specs.Prelude.{◌≡◌};
ghost use Rattle.qg_refs.specs.Counts.{greatest_count};

use qg_items::Reference;
use qg_num::RootId;

/// A reference with its count (on-disk format, "backreferences").
#[derive(Clone, Copy, PartialEq, Eq)]
pub struct Counted {
    /// What it is from.
    pub reference: Reference,
    /// How often it is there.
    pub count: u32,
}

// What a place of a list holds before anything is put there.
impl Default for Counted {
    fn default() -> Counted {
        Counted {
            reference: Reference::KeyedBlock {
                root: RootId::new(0),
            },
            count: 0,
        }
    }
}

/// How often a reference may be there: one to a node is there or not.
pub fn greatest_count(reference: &Reference) -> u32
    ensures { result ≡ greatest_count reference.now }
{
    match reference {
        Reference::KeyedBlock { .. } => 1,
        Reference::SharedBlock { .. } => 1,
        Reference::KeyedData { .. } => u32::MAX,
        Reference::SharedData { .. } => u32::MAX,
    }
}
