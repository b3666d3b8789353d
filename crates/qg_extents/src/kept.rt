// What is kept of one node or extent, edited.
ghost use Rattle.std.specs.Prelude.{◌≡◌, ◌-◌, ◌^◌, ◌<◌, ◌==◌, length, OnOk, OnErr};
ghost use Rattle.qg_refs.specs.Counts.{count_of, HasOneMore, IsRefList};

use qg_num::NoMemory;
use qg_refs::{Kept, Reference};

/// One more of a reference. Where memory is refused, nothing changes.
pub(crate) fn add_to(kept: &mut Kept, reference: Reference) -> Result<(), NoMemory>
    requires room { count_of kept.old.references reference < 2 ^ 32 - 1 }
    ensures ok { OnOk result (HasOneMore kept.old.references kept.new.references reference) }
    ensures same { OnOk result (kept.new ≡ record kept.old { references = kept.new.references }) }
    ensures sound { OnOk result (IsRefList kept.new.references) }
    ensures err { OnErr result (kept.new ≡ kept.old) }
{
    kept.references.add(reference)?;
    let _ascending = kept.references.as_slice();
    Ok(())
}

/// One less of a reference. Whether none is left.
pub(crate) fn drop_from(kept: &mut Kept, reference: &Reference) -> bool
    requires { 0 < count_of kept.old.references reference.now }
    ensures less { HasOneMore kept.new.references kept.old.references reference.now }
    ensures same { kept.new ≡ record kept.old { references = kept.new.references } }
    ensures sound { IsRefList kept.new.references }
    ensures last { result ≡ (length kept.new.references == 0) }
{
    kept.references.drop_one(reference);
    let _ascending = kept.references.as_slice();
    kept.references.is_empty()
}
