// The references that parts tell.
ghost use Rattle.std.specs.Prelude.{◌≡◌, true, false, IfOk, MatchOption};
ghost use Rattle.qg_tree_items.specs.Owed.{reference_told};
ghost use Rattle.qg_extents.specs.Reading.{IsGathered, IsPartRefused, IsPartTaken, IsRefused, IsTaken, adds_up};

use qg_num::NoMemory;
use qg_refs::{RefList, Reference, greatest_count};
use qg_tree_items::image::ExtentPart;
use std::alloc::Global;

// References that were found so far, and how many more are to come.
#[derive(Drop)]
struct Gathered {
    left: u64,
    references: RefList,
}

/// The references that parts at one address tell, if there is one, each is told once and with a count that it may have,
/// and this is the sum of the counts.
pub(crate) fn read_references(
    alloc: Global,
    here: &[ExtentPart],
    refs: u64,
) -> Result<Option<RefList>, NoMemory>
    ensures { IfOk result (λ found. MatchOption found (adds_up refs here.now ≡ false) (IsGathered refs here.now)) }
{
    let mut gathered = Gathered {
        left: refs,
        references: RefList::new(alloc),
    };
    for part in here {
        if !gather_part(&mut gathered, part)? {
            return Ok(None);
        }
    }
    if refs == 0 || gathered.left != 0 {
        return Ok(None);
    }
    let _ascending = gathered.references.as_slice();
    Ok(Some(gathered.references))
}

// Puts the reference of a part, if it tells one and that may be.
fn gather_part(gathered: &mut Gathered, part: &ExtentPart) -> Result<bool, NoMemory>
    ensures taken { IfOk result (λ taken. taken ≡ true
        → IsPartTaken gathered.old gathered.new (reference_told part.now)) }
    ensures refused { IfOk result (λ taken. taken ≡ false → IsPartRefused gathered.old (reference_told part.now)) }
{
    match part {
        ExtentPart::DataRecord { .. } => Ok(true),
        ExtentPart::NodeRecord { .. } => Ok(true),
        ExtentPart::Referenced {
            reference,
            count,
            ..
        } => Ok(gather(gathered, *reference, *count)?),
    }
}

// Puts one more, if it may be.
fn gather(gathered: &mut Gathered, reference: Reference, count: u32) -> Result<bool, NoMemory>
    ensures taken { IfOk result (λ taken. taken ≡ true → IsTaken gathered.old gathered.new reference count) }
    ensures refused { IfOk result (λ taken. taken ≡ false → IsRefused gathered.old reference count) }
{
    if count == 0 || count > greatest_count(&reference) {
        return Ok(false);
    }
    if count as u64 > gathered.left || gathered.references.count(&reference) != 0 {
        return Ok(false);
    }
    gathered.references.put(reference, count)?;
    gathered.left -= count as u64;
    Ok(true)
}
