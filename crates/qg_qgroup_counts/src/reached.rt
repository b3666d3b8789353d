// Which subvolumes reach each node.
ghost use Rattle.std.specs.Prelude.{◌≡◌, ◌↔◌, ℕ, List, [], map, length, IfOk, OnOk, IsTrue, slice_index};
ghost use Rattle.std.specs.List.Sorted.{IsStrictlyIncreasing};
ghost use Rattle.qg_qgroup_counts.specs.Sets.{HasMember, row_of, IsUnionOf, AreMembers};
ghost use Rattle.qg_qgroup_counts.specs.Reached.{AreWays, IsSized, AreSettledFrom, TellsReach};

use crate::level::{Ways, settle_level, ways_to};
use crate::rows::{has_member, members_of};
use crate::sets::{SetId, Sets};
use qg_num::{Address, NoMemory, RootId, Sequence};
use qg_owner_rule::{Linked, highest_level};
use std::alloc::{AllocError, Global};

/// For each node the number of the set of those subvolumes that reach it, and these sets (this project's own).
#[derive(Drop)]
pub struct Reached {
    pub(crate) numbers: Vec<SetId>,
    pub(crate) sets: Sets,
}

/// Which subvolumes reach each node (this project's own). The nodes ascend by address.
///
/// A node that is reached by one way alone has the set of the node above it. So sets are made only where ways from
/// different sets meet, and each node has one made at most.
pub fn reached_from(
    alloc: Global,
    roots: &[(RootId, Address)],
    nodes: &[Linked],
) -> Result<Reached, NoMemory>
    requires { IsStrictlyIncreasing (map (λ node. node.address) nodes.now) }
    ensures { IfOk result (λ reached. TellsReach nodes.now roots.now reached) }
{
    let ways = ways_to(alloc, roots, nodes)?;
    let mut reached = Reached {
        numbers: vec![in alloc; SetId::NONE; nodes.len()]?,
        sets: Sets::new(alloc)?,
    };
    settle_all(alloc, &mut reached, nodes, &ways)?;
    Ok(reached)
}

/// Settles all nodes, from the highest level down.
fn settle_all(
    alloc: Global,
    reached: &mut Reached,
    nodes: &[Linked],
    ways: &Ways,
) -> Result<(), AllocError>
    requires { IsSized nodes.now ways.now reached.old }
    ensures sized { OnOk result (IsSized nodes.now ways.now reached.new) }
    ensures settled { OnOk result ((roots : List (ℕ × ℕ)) → AreWays nodes.now roots ways.now
        → AreSettledFrom nodes.now roots 0 reached.new) }
{
    let highest = highest_level(nodes);
    for depth in 0..highest {
        settle_level(alloc, reached, nodes, ways, highest - depth)?;
    }
    settle_level(alloc, reached, nodes, ways, 0)?;
    Ok(())
}

impl Reached {
    /// The set of the node at an index.
    pub fn set_of(&self, place: usize) -> SetId
        ensures { result ≡ slice_index self.now.numbers.items place }
    {
        if place < self.numbers.len() {
            self.numbers[place]
        } else {
            SetId::NONE
        }
    }

    /// How many sets there are.
    pub fn count(&self) -> usize
        ensures { result ≡ length self.now.sets.rows.items }
    {
        self.sets.len()
    }

    /// Whether the subvolume at an index is a member of a set.
    pub fn has(&self, set: SetId, subvolume: usize) -> bool
        ensures { IsTrue result ↔ HasMember (row_of self.now.sets.rows.items set) subvolume }
    {
        has_member(self.sets.row(set), subvolume)
    }

    /// The members of a set among so many subvolumes, ascending.
    pub fn members(
        &self,
        alloc: Global,
        set: SetId,
        subvolumes: usize,
    ) -> Result<Sequence<usize>, NoMemory>
        ensures { IfOk result (λ members. AreMembers (row_of self.now.sets.rows.items set) subvolumes members) }
    {
        Ok(members_of(alloc, self.sets.row(set), subvolumes)?)
    }

    /// The set of all that are in one of some sets, as of an extent that several leaves name.
    pub fn union(&mut self, alloc: Global, sets: &[SetId]) -> Result<SetId, NoMemory>
        ensures union { IfOk result (λ set.
            IsUnionOf self.old.sets.rows.items [] sets.now self.new.sets.rows.items set) }
        ensures reach { IfOk result (λ _. (nodes : List Linked) (roots : List (ℕ × ℕ))
            → TellsReach nodes roots self.old → TellsReach nodes roots self.new) }
    {
        Ok(self.sets.union_with(alloc, &[], sets)?)
    }
}
