// The direct counts of groups.
ghost use Rattle.std.specs.Prelude.{◌≡◌, ◌+◌, ◌*◌, ◌^◌, ◌<◌, map, length, IfOk};
ghost use Rattle.std.specs.List.{All};
ghost use Rattle.std.specs.List.Sorted.{IsStrictlyIncreasing};
ghost use Rattle.qg_image.specs.State.{Layout};
ghost use Rattle.qg_image.specs.Counts.{bytes_of};
ghost use Rattle.qg_image.specs.Members.{level_of_group};
ghost use Rattle.qg_qgroup_counts.specs.Surveyed.{AreSurveyed};
ghost use Rattle.qg_qgroup_counts.specs.Direct.{AreGroupCounts};

use crate::groups_above::{above_of, groups_of};
use crate::links::reached_of;
use crate::namers::namers_of;
use crate::portions::{extent_portions, push_nodes};
use crate::{Surveyed, group_counters};
use qg_image::Element;
use qg_num::{Address, Counters, NoMemory, RootId};
use qg_qgroups::Hierarchy;
use std::alloc::Global;

/// The direct count of each group, in the order of the groups: the bytes of what its members reach, and of what no
/// other subvolume reaches (btrfs-qgroup(8), "referenced" and "exclusive").
///
/// `nodes` are all that subvolumes reach, ascending by address, of `nodesize` bytes each; `extents` are those that
/// leaves name, ascending by address. An extent that is named and isn't among those is passed by. The numbers of
/// subvolumes are those of groups of level 0.
pub fn group_counts(
    alloc: Global,
    roots: &[(RootId, Address)],
    nodes: &[Surveyed],
    nodesize: u32,
    extents: &[Element],
    hierarchy: &Hierarchy,
) -> Result<Vec<Counters>, NoMemory>
    requires ascending { IsStrictlyIncreasing (map (λ node. node.linked.address) nodes.now) }
    requires small { nodesize * length nodes.now + bytes_of extents.now < 2 ^ 64 }
    requires lowest { All (λ root. level_of_group root.0 ≡ 0) roots.now }
    ensures all { IfOk result (λ counters. length counters.items ≡ length hierarchy.now.groups) }
    ensures direct { (layout : Layout) → AreSurveyed layout roots.now nodes.now nodesize extents.now
        → IfOk result (λ counters. AreGroupCounts layout hierarchy.now counters.items) }
{
    let mut reached = reached_of(alloc, roots, nodes)?;
    let namers = namers_of(alloc, nodes, extents)?;
    let mut portions = extent_portions(alloc, &mut reached, extents, namers.as_slice())?;
    push_nodes(&mut portions, &reached, nodesize, nodes.len())?;
    let groups = groups_of(hierarchy)?;
    let count = groups.len();
    let above = above_of(alloc, roots, hierarchy, groups.as_slice())?;
    group_counters(
        alloc,
        &reached,
        portions.as_slice(),
        above.as_slice(),
        count,
    )
}
