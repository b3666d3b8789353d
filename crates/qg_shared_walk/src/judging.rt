// The two rules judged.
ghost use Rattle.std.specs.Prelude.{◌≡◌, ℕ, List, map, IfOk};
ghost use Rattle.std.specs.List.Sorted.{IsNonDecreasingBy, IsStrictlyIncreasing};
ghost use Rattle.qg_items.specs.declared.root.RootItem.{RootItem};
ghost use Rattle.qg_super.specs.declared.superblock.Super.{Super};
ghost use Rattle.qg_image.specs.Table.{keys_of};
ghost use Rattle.qg_image.specs.State.{layout_of};
ghost use Rattle.qg_image.specs.Owed.{part_address};
ghost use Rattle.qg_image.specs.ImageState.{state_in};
ghost use Rattle.qg_image.specs.Verdict.{references_failure};
ghost use Rattle.qg_reach.specs.Sets.{HaveSame};
ghost use Rattle.qg_qgroup_counts.specs.Surveyed.{AreSurveyed};
ghost use Rattle.qg_shared_walk.specs.Gathered.{AreGathered, root_at};
ghost use Rattle.qg_shared_walk.specs.Judged.{failure_in, IfKept};

use crate::NodesRead;
use crate::full::full_nodes;
use crate::lists::{add_extents, add_roots, lists_of};
use crate::order::{shared_address, sort_nodes};
use crate::surveyed::links_of;
use qg_backref_rule::{references_failure, sort_things};
use qg_image::{Element, ExtentPart, Failure};
use qg_num::{Address, NoMemory, RootId, Rule};
use qg_qgroup_counts::Surveyed;
use std::alloc::Global;

/// How the references of an image were judged (this project's own).
#[derive(Drop)]
pub enum ReferenceVerdict {
    /// A rule is broken.
    Breaks(Failure),
    /// None is. These are the nodes, ascending by address, each once, as they are counted.
    Keeps(Vec<Surveyed>),
}

/// The failure of an image's references where its trees were read: the rule `refs` at the least address where the
/// extent tree doesn't record what is owed, and else the rule `home` at the least address of a node that its owner
/// doesn't reach (this project's own). Addresses are in bytes.
///
/// `roots` are the addresses of the subvolumes' roots, ascending by the subvolumes' numbers; of each node of their
/// trees `nodes` gathered once what it is, in whatever order and however many subvolumes reach it. `extents` are those
/// that the pieces of these nodes name, in whatever order, and `parts` is what the extent tree's items say, ascending
/// by address. Where two nodes lie at one address, as only a disk that lies has it, the rule `refs` is answered there.
pub fn judge_references(
    alloc: Global,
    nodes: NodesRead,
    roots: &[(RootId, Address)],
    extents: &[Element],
    parts: &[ExtentPart],
) -> Result<ReferenceVerdict, NoMemory>
    requires roots { IsStrictlyIncreasing (keys_of roots.now) }
    requires parts { IsNonDecreasingBy part_address parts.now }
    ensures failure { (super : Super) (image : List ℕ) (items : List (ℕ × RootItem)) → roots.now ≡ map root_at items
        → AreGathered super image items nodes extents.now parts.now
        → IfOk result (λ judged. failure_in judged
        ≡ references_failure super image (layout_of (state_in super image))) }
    ensures surveyed { (super : Super) (image : List ℕ) (items : List (ℕ × RootItem)) → roots.now ≡ map root_at items
        → AreGathered super image items nodes extents.now parts.now
        → IfOk result (λ judged. IfKept judged (λ those.
        AreSurveyed (layout_of (state_in super image)) roots.now those super.nodesize extents.now)) }
    ensures ascending { IfOk result (λ judged. IfKept judged (λ those.
        IsStrictlyIncreasing (map (λ node. node.linked.address) those))) }
    ensures same { IfOk result (λ judged. IfKept judged (λ those. HaveSame (map (λ node. node.linked.address) those)
        (map (λ node. node.linked.address) nodes.nodes.items))) }
{
    let mut read = nodes.nodes;
    sort_nodes(&mut read);
    if let Some(address) = shared_address(read.as_slice()) {
        let rule = Rule::Refs;
        return Ok(ReferenceVerdict::Breaks(Failure::Broken { rule, address }));
    }
    let full = full_nodes(alloc, parts)?;
    let mut lists = lists_of(alloc, read, full.as_slice())?;
    add_roots(roots, &mut lists.owings)?;
    add_extents(extents, &mut lists.things)?;
    sort_things(&mut lists.things)?;
    let links = links_of(alloc, lists.surveyed.as_slice())?;
    let broken = references_failure(
        alloc,
        &mut lists.owings,
        lists.things.as_slice(),
        parts,
        roots,
        links.as_slice(),
    )?;
    if let Some(failure) = broken {
        return Ok(ReferenceVerdict::Breaks(failure));
    }
    Ok(ReferenceVerdict::Keeps(lists.surveyed))
}
