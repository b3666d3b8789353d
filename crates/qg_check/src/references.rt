// The references that the extent tree records.
ghost use Rattle.std.specs.Prelude.{◌≡◌, ℕ, All, List, map, Option, IfOk, IsErrOf};
ghost use Rattle.std.specs.List.Sorted.{IsNonDecreasingBy, IsStrictlyIncreasing};
ghost use Rattle.std.specs.Option.{option_map};
ghost use Rattle.qg_num.specs.declared.rule.Rule.TheVariants as rule;
ghost use Rattle.qg_items.specs.declared.root.RootItem.{RootItem};
ghost use Rattle.qg_super.specs.declared.superblock.Super.{Super};
ghost use Rattle.qg_image.specs.Table.{keys_of};
ghost use Rattle.qg_image.specs.Owed.{part_address};
ghost use Rattle.qg_image.specs.State.{layout_of};
ghost use Rattle.qg_image.specs.declared.failure.Failure.TheVariants as failure;
ghost use Rattle.qg_image.specs.ImageState.{state_in};
ghost use Rattle.qg_image.specs.Verdict.{references_failure};
ghost use Rattle.qg_walk.specs.Fault.{FailsAs, TellsFailure};
ghost use Rattle.qg_extents.specs.Table.{IsTable, book_of};
ghost use Rattle.qg_extents.specs.BookRecords.{IsFault, IsTold, records_failure};
ghost use Rattle.qg_reach.specs.Sets.{HaveSame};
ghost use Rattle.qg_qgroup_counts.specs.Surveyed.{AreSurveyed};
ghost use Rattle.qg_shared_walk.specs.Gathered.{AreGathered, root_at};
ghost use Rattle.qg_check.specs.Counts.{CountFits};

use qg_extents::{Extents, RefsFault};
use qg_image::{Element, ExtentPart};
use qg_num::{Address, RootId, Rule};
use qg_qgroup_counts::Surveyed;
use qg_shared_walk::{NodesRead, ReferenceVerdict, judge_references};
use qg_walk::OpenFault;
use std::alloc::Global;

/// Judges the references that the extent tree records, and that each node that is not full is reached by its owner.
/// `roots` are the addresses of the subvolumes' roots, ascending by number. Gives what is surveyed of the nodes,
/// ascending by address.
pub(crate) fn judge_recorded(
    alloc: Global,
    nodes: NodesRead,
    roots: &[(RootId, Address)],
    extents: &[Element],
    parts: &[ExtentPart],
) -> Result<Vec<Surveyed>, OpenFault>
    requires roots { IsStrictlyIncreasing (keys_of roots.now) }
    requires parts { IsNonDecreasingBy part_address parts.now }
    ensures failure { (super : Super) (bytes : List ℕ) (items : List (ℕ × RootItem)) → roots.now ≡ map root_at items
        → AreGathered super bytes items nodes extents.now parts.now
        → FailsAs result (references_failure super bytes (layout_of (state_in super bytes))) }
    ensures surveyed { (super : Super) (bytes : List ℕ) (items : List (ℕ × RootItem)) → roots.now ≡ map root_at items
        → AreGathered super bytes items nodes extents.now parts.now
        → IfOk result (λ those. AreSurveyed (layout_of (state_in super bytes)) roots.now those.items super.nodesize
        extents.now) }
    ensures ascending { IfOk result (λ those. IsStrictlyIncreasing (map (λ node. node.linked.address) those.items)) }
    ensures same { IfOk result (λ those. HaveSame (map (λ node. node.linked.address) those.items)
        (map (λ node. node.linked.address) nodes.nodes.items)) }
    ensures no_disk { IsErrOf result OpenFault.Disk → ⊥ }
{
    match judge_references(alloc, nodes, roots, extents, parts)? {
        ReferenceVerdict::Keeps(surveyed) => Ok(surveyed),
        ReferenceVerdict::Breaks(failure) => Err(OpenFault::from(failure)),
    }
}

/// The book that the extent tree's items tell. Where they tell none, as only a disk that lies has it, rule `refs` is
/// broken.
pub(crate) fn read_book(
    alloc: Global,
    nodesize: u32,
    parts: &[ExtentPart],
) -> Result<Extents, OpenFault>
    requires { IsNonDecreasingBy part_address parts.now }
    ensures failure { FailsAs result (option_map (failure.Broken rule.Refs) (records_failure parts.now)) }
    ensures told { IfOk result (λ book. IsTold nodesize parts.now (book_of book)) }
    ensures table { IfOk result (λ book. IsTable book) }
    ensures no_disk { IsErrOf result OpenFault.Disk → ⊥ }
{
    match Extents::read(alloc, nodesize, parts) {
        Ok(book) => {
            let _table = book.table();
            Ok(book)
        }
        Err(fault) => Err(opening_fault(fault)),
    }
}

// The fault of opening where no book could be read.
fn opening_fault(fault: RefsFault) -> OpenFault
    ensures told { (first : Option ℕ) → IsFault first fault
        → TellsFailure result (option_map (failure.Broken rule.Refs) first) }
    ensures no_disk { result ≡ OpenFault.Disk → ⊥ }
{
    match fault {
        RefsFault::Broken(address) => OpenFault::Broken {
            rule: Rule::Refs,
            address,
        },
        RefsFault::NoMemory => OpenFault::NoMemory,
    }
}

/// Looks at each count, which so is one that fits its field.
pub(crate) fn look_at_counts(parts: &[ExtentPart])
    ensures { All CountFits parts.now }
{
    for part in parts {
        look_at_count(part);
    }
}

fn look_at_count(part: &ExtentPart)
    ensures { CountFits part.now }
{
    match part {
        ExtentPart::DataRecord { .. } => {}
        ExtentPart::NodeRecord { .. } => {}
        ExtentPart::Referenced { count, .. } => {
            let _count = *count;
        }
    }
}
