// One address.
ghost use Rattle.std.specs.Prelude.{◌≡◌, map, IfOk, IfSome};
ghost use Rattle.qg_backref_rule.specs.Judged.{agree, what_of};

use crate::order::{sort, sort_counted};
use crate::owing::Owing;
use crate::record::{is_recorded_once, sum_of};
use crate::references::{are_references, entry_of, put_owed, put_told};
use crate::thing::Kind;
use qg_image::ExtentPart;
use qg_num::NoMemory;
use qg_refs::{Counted, Reference};
use std::alloc::Global;

/// Room in which what is recorded and what is owed at an address is put in order, used again at the next.
#[derive(Drop)]
pub(crate) struct Room {
    told: Vec<Counted>,
    owed: Vec<Reference>,
}

impl Room {
    /// Empty room.
    pub(crate) fn new(alloc: Global) -> Room {
        Room {
            told: Vec::new(alloc),
            owed: Vec::new(alloc),
        }
    }

    /// Whether the parts that stand at an address are what is owed there to what begins there.
    pub(crate) fn agree(
        &mut self,
        kind: &Option<Kind>,
        owings: &[Owing],
        parts: &[ExtentPart],
    ) -> Result<bool, NoMemory>
        ensures { IfOk result (λ same. same
            ≡ agree (what_of kind.now) (map (λ owing. owing.reference) owings.now) parts.now) }
    {
        if let Some(same) = agree_on_one(kind, owings, parts) {
            return Ok(same);
        }
        put_told(&mut self.told, parts)?;
        sort_counted(&mut self.told);
        put_owed(&mut self.owed, owings)?;
        sort(&mut self.owed);
        let (told, owed) = (self.told.as_slice(), self.owed.as_slice());
        Ok(is_recorded_once(kind, sum_of(told), parts) && are_references(told, owed))
    }
}

// The same where there are one owing and two parts of which the second alone tells a reference, as of most extents;
// else none. It takes no memory.
fn agree_on_one(kind: &Option<Kind>, owings: &[Owing], parts: &[ExtentPart]) -> Option<bool>
    ensures { IfSome result (λ same. same
        ≡ agree (what_of kind.now) (map (λ owing. owing.reference) owings.now) parts.now) }
{
    let ([owing], [first, second]) = (owings, parts) else {
        return None;
    };
    if entry_of(first).is_some() {
        return None;
    }
    let entry = entry_of(second)?;
    let (told, owed) = ([entry], [owing.reference]);
    Some(is_recorded_once(kind, sum_of(&told), parts) && are_references(&told, &owed))
}
