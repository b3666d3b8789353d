// The rules `refs` and `home` together.
ghost use Rattle.std.specs.Prelude.{◌≡◌, ℕ, List, map, IfOk};
ghost use Rattle.std.specs.List.Sorted.{IsNonDecreasingBy, IsStrictlyIncreasing};
ghost use Rattle.std.specs.Option.{option_map};
ghost use Rattle.qg_super.specs.declared.superblock.Super.{Super};
ghost use Rattle.qg_image.specs.Table.{keys_of};
ghost use Rattle.qg_image.specs.State.{Layout};
ghost use Rattle.qg_image.specs.Owed.{part_address};
ghost use Rattle.qg_image.specs.declared.failure.Failure.TheVariants.{Broken};
ghost use Rattle.qg_image.specs.ImageState.{extent_parts};
ghost use Rattle.qg_image.specs.Verdict.{references_failure};
ghost use Rattle.qg_owner_rule.specs.Linked.{AreLinksOf};
ghost use Rattle.qg_backref_rule.specs.OwedLists.{IsTold};

use crate::failure::owed_failure;
use crate::owing::Owing;
use crate::thing::Thing;
use qg_image::{ExtentPart, Failure};
use qg_num::{Address, NoMemory, RootId, Rule};
use qg_owner_rule::{Linked, homeless};
use std::alloc::Global;

/// The failure of an image's references: the rule `refs` at the least address where the extent tree doesn't record
/// what is owed, and else the rule `home` at the least address of a node that its owner doesn't reach (this project's
/// own). Addresses are in bytes.
///
/// What is owed may come in any order, and is put in order here. Things, items and nodes ascend by address, and roots
/// by number.
pub fn references_failure(
    alloc: Global,
    owings: &mut Vec<Owing>,
    things: &[Thing],
    parts: &[ExtentPart],
    roots: &[(RootId, Address)],
    nodes: &[Linked],
) -> Result<Option<Failure>, NoMemory>
    requires things { IsNonDecreasingBy (λ thing. thing.address) things.now }
    requires parts { IsNonDecreasingBy part_address parts.now }
    requires roots { IsStrictlyIncreasing (keys_of roots.now) }
    requires nodes { IsStrictlyIncreasing (map (λ node. node.address) nodes.now) }
    ensures { (super : Super) (image : List ℕ) (layout : Layout) → parts.now ≡ extent_parts super image
        → IsTold layout owings.old.items things.now → AreLinksOf layout roots.now nodes.now
        → IfOk result (λ failure. failure ≡ references_failure super image layout) }
{
    let refs = owed_failure(alloc, owings, things, parts)?;
    if refs.is_some() {
        return Ok(broken(Rule::Refs, refs));
    }
    let home = homeless(alloc, roots, nodes)?;
    Ok(broken(Rule::Home, home))
}

// A rule is broken at an address, if there is one.
fn broken(rule: Rule, found: Option<Address>) -> Option<Failure>
    ensures { result ≡ option_map (Broken rule) found }
{
    match found {
        Some(address) => Some(Failure::Broken { rule, address }),
        None => None,
    }
}
