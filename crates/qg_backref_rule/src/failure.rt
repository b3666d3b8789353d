// The rule `refs` over lists.
ghost use Rattle.std.specs.Prelude.{◌≡◌, IfOk};
ghost use Rattle.std.specs.List.Sorted.{IsNonDecreasingBy};
ghost use Rattle.qg_image.specs.State.{Layout};
ghost use Rattle.qg_image.specs.Owed.{disagreement, part_address};
ghost use Rattle.qg_backref_rule.specs.OwedLists.{IsTold};
ghost use Rattle.qg_backref_rule.specs.Judged.{first_disagreement};

use crate::fronts::{
    kind_first, least_address, owings_below, owings_upto, parts_upto, things_upto,
};
use crate::here::Room;
use crate::owing::Owing;
use crate::thing::Thing;
use qg_image::ExtentPart;
use qg_num::{Address, NoMemory};
use std::alloc::Global;

/// The least address at which the items of the extent tree aren't what is owed to what begins there: the rule `refs`
/// (this project's own). Addresses are in bytes.
///
/// What is owed may come in any order, and is put in order here. Things and items ascend by address.
pub fn owed_failure(
    alloc: Global,
    owings: &mut Vec<Owing>,
    things: &[Thing],
    parts: &[ExtentPart],
) -> Result<Option<Address>, NoMemory>
    requires things { IsNonDecreasingBy (λ thing. thing.address) things.now }
    requires parts { IsNonDecreasingBy part_address parts.now }
    ensures { (layout : Layout) → IsTold layout owings.old.items things.now
        → IfOk result (λ found. found ≡ disagreement layout parts.now) }
{
    owings.sort_unstable_by_key(|owing| owing.address);
    first_disagreement(alloc, owings.as_slice(), things, parts)
}

// The same where what is owed ascends by address.
fn first_disagreement(
    alloc: Global,
    owings: &[Owing],
    things: &[Thing],
    parts: &[ExtentPart],
) -> Result<Option<Address>, NoMemory>
    requires owings { IsNonDecreasingBy (λ owing. owing.address) owings.now }
    requires things { IsNonDecreasingBy (λ thing. thing.address) things.now }
    requires parts { IsNonDecreasingBy part_address parts.now }
    ensures { IfOk result (λ found. found ≡ first_disagreement owings.now things.now parts.now) }
{
    let mut room = Room::new(alloc);
    let mut owings_left = owings;
    let mut things_left = things;
    let mut parts_left = parts;
    while let Some(address) = least_address(things_left, parts_left) {
        owings_left = &owings_left[owings_below(owings_left, address)..];
        let owed = owings_upto(owings_left, address);
        let recorded = parts_upto(parts_left, address);
        let kind = kind_first(things_left, address);
        if !room.agree(&kind, &owings_left[..owed], &parts_left[..recorded])? {
            return Ok(Some(address));
        }
        owings_left = &owings_left[owed..];
        things_left = &things_left[things_upto(things_left, address)..];
        parts_left = &parts_left[recorded..];
    }
    Ok(None)
}
