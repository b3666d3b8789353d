// Quota groups and their relations.
ghost use Rattle.std.specs.Prelude.{◌≡◌, None, Some, MatchOption, IfOk, IfErr, OnOk, OnErr};
ghost use Rattle.qg_machine.specs.Members.{members};
ghost use Rattle.qg_qgroups.specs.Groups.{assigned, created, destroyed, groups_above, no_groups, unassigned, IsSound};
ghost use Rattle.qg_qgroups.specs.Faults.{assign_fault, create_fault, destroy_fault, no_group, remove_fault, IsCause};
ghost use Rattle.qg_qgroups.specs.declared.fault.HierFault.TheVariants as why;
ghost use Rattle.qg_qgroups.specs.Kept.{AreSubvolumes, IsLastAbove};

use crate::HierFault;
use crate::numbers::{groups_of, has_number, put_number, subvolumes_of, take_least, take_number};
use crate::pairs::{first_other, has_pair, pairs_of, put_others, put_pair, take_others, take_pair};
use qg_num::{GroupId, GroupList, RootId, Sequence};
use std::alloc::Global;
use std::collections::BTreeSet;
use std::marker::Model;

/// Subvolumes by their numbers, ascending.
pub type RootList = Sequence<RootId>;

/// Relations between quota groups, each a member and its parent, ascending.
pub type PairList = Sequence<(GroupId, GroupId)>;

/// Quota groups and the relations between them (btrfs-qgroup(8), "hierarchical quota groups"). A contract sees both by
/// number, ascending.
#[derive(Drop)]
pub struct Hierarchy {
    alloc: Global,
    groups: BTreeSet<u64>,
    // Each relation, from the member to the parent, and from the parent to the member.
    up: BTreeSet<(u64, u64)>,
    down: BTreeSet<(u64, u64)>,
}

impl Model for Hierarchy {
    ghost use Rattle.qg_machine.specs.Members.{Hierarchy};
    ghost use Rattle.qg_qgroups.specs.Kept.{seen, AreKept};

    ghost Value = { Hierarchy };

    ghost view = { λ h. seen h.groups h.up };

    ghost invariant = { λ h. AreKept h.groups h.up h.down };
}

impl Hierarchy {
    /// There is no group, and no relation. It takes no memory.
    pub fn new(alloc: Global) -> Hierarchy
        ensures { result ≡ no_groups }
    {
        Hierarchy {
            alloc,
            groups: BTreeSet::new(alloc),
            up: BTreeSet::new(alloc),
            down: BTreeSet::new(alloc),
        }
    }

    /// Makes a group of any level. It is refused where the group is there.
    pub fn create(&mut self, group: GroupId) -> Result<(), HierFault>
        ensures ok { OnOk result (self.new ≡ created group self.old) }
        ensures none { OnOk result (create_fault self.old group ≡ None) }
        ensures err { OnErr result (self.new ≡ self.old) }
        ensures cause { IfErr result (IsCause (create_fault self.old group)) }
    {
        if has_number(&self.groups, group.number()) {
            return Err(HierFault::GroupThere);
        }
        put_number(&mut self.groups, group.number())?;
        Ok(())
    }

    /// Takes a group away, with its relations to its parents. It is refused where the group isn't there, or has
    /// members. It takes no memory.
    pub fn destroy(&mut self, group: GroupId) -> Result<(), HierFault>
        ensures ok { OnOk result (self.new ≡ destroyed group self.old) }
        ensures none { OnOk result (destroy_fault self.old group ≡ None) }
        ensures err { OnErr result (self.new ≡ self.old) }
        ensures cause { IfErr result (λ fault. destroy_fault self.old group ≡ Some fault) }
    {
        let number = group.number();
        if !has_number(&self.groups, number) {
            return Err(HierFault::NoGroup);
        }
        if first_other(&self.down, number).is_some() {
            return Err(HierFault::Busy);
        }
        take_others(&mut self.up, &mut self.down, number);
        take_number(&mut self.groups, number);
        Ok(())
    }

    /// Makes a group a member of another. It is refused where its level isn't less, where one of them isn't there, or
    /// where it is a member already.
    pub fn assign(&mut self, member: GroupId, parent: GroupId) -> Result<(), HierFault>
        ensures ok { OnOk result (self.new ≡ assigned member parent self.old) }
        ensures none { OnOk result (assign_fault self.old member parent ≡ None) }
        ensures err { OnErr result (self.new ≡ self.old) }
        ensures cause { IfErr result (IsCause (assign_fault self.old member parent)) }
    {
        if member.level() >= parent.level() {
            return Err(HierFault::Level);
        }
        let (below, above) = (member.number(), parent.number());
        if !has_number(&self.groups, below) || !has_number(&self.groups, above) {
            return Err(HierFault::NoGroup);
        }
        if has_pair(&self.up, below, above) {
            return Err(HierFault::Related);
        }
        put_pair(&mut self.down, above, below)?;
        if put_pair(&mut self.up, below, above).is_err() {
            take_pair(&mut self.down, above, below);
            return Err(HierFault::NoMemory);
        }
        Ok(())
    }

    /// Ends that a group is a member of another. It is refused where it isn't. It takes no memory.
    pub fn remove(&mut self, member: GroupId, parent: GroupId) -> Result<(), HierFault>
        ensures ok { OnOk result (self.new ≡ unassigned member parent self.old) }
        ensures none { OnOk result (remove_fault self.old member parent ≡ None) }
        ensures err { OnErr result (self.new ≡ self.old) }
        ensures cause { IfErr result (λ fault. remove_fault self.old member parent ≡ Some fault) }
    {
        let (below, above) = (member.number(), parent.number());
        if !has_pair(&self.up, below, above) {
            return Err(HierFault::NotRelated);
        }
        take_pair(&mut self.up, below, above);
        take_pair(&mut self.down, above, below);
        Ok(())
    }

    /// A group and every group that a chain of relations leads to from it, each once, ascending. It is refused where
    /// the group isn't there.
    pub fn above(&self, group: GroupId) -> Result<GroupList, HierFault>
        ensures ok { IfOk result (λ above. above ≡ groups_above self.now group) }
        ensures none { OnOk result (no_group self.now group ≡ None) }
        ensures cause { IfErr result (IsCause (no_group self.now group)) }
        ensures sound { IsSound self.now }
    {
        let number = group.number();
        if !has_number(&self.groups, number) {
            return Err(HierFault::NoGroup);
        }
        let mut pending = BTreeSet::new(self.alloc);
        put_number(&mut pending, number)?;
        let mut above = GroupList::new(self.alloc);
        while let Some(next) = take_least(&mut pending) {
            above.push(GroupId::from_number(next))?;
            put_others(&self.up, next, &mut pending)?;
        }
        Ok(above)
    }

    /// The numbers of the subvolumes whose groups are this one or lead to it by a chain of relations, ascending. It is
    /// refused where the group isn't there.
    pub fn members(&self, group: GroupId) -> Result<RootList, HierFault>
        ensures ok { IfOk result (λ subs. subs ≡ members self.now group) }
        ensures none { OnOk result (no_group self.now group ≡ None) }
        ensures cause { IfErr result (IsCause (no_group self.now group)) }
        ensures sound { IsSound self.now }
    {
        let number = group.number();
        if !has_number(&self.groups, number) {
            return Err(HierFault::NoGroup);
        }
        let mut pending = BTreeSet::new(self.alloc);
        put_number(&mut pending, number)?;
        while let Some(last) = last_above_subvolumes(&pending) {
            take_number(&mut pending, last);
            put_others(&self.down, last, &mut pending)?;
        }
        Ok(subvolumes_of(self.alloc, &pending)?)
    }

    /// The groups, ascending.
    pub fn groups(&self) -> Result<GroupList, HierFault>
        ensures ok { IfOk result (λ groups. groups ≡ self.now.groups) }
        ensures cause { IfErr result (λ fault. fault ≡ why.NoMemory) }
        ensures sound { IsSound self.now }
    {
        Ok(groups_of(self.alloc, &self.groups)?)
    }

    /// The relations, each a member and its parent, ascending.
    pub fn pairs(&self) -> Result<PairList, HierFault>
        ensures ok { IfOk result (λ pairs. pairs ≡ self.now.pairs) }
        ensures cause { IfErr result (λ fault. fault ≡ why.NoMemory) }
        ensures sound { IsSound self.now }
    {
        Ok(pairs_of(self.alloc, &self.up)?)
    }
}

// The greatest of some groups, if it isn't of level 0.
fn last_above_subvolumes(groups: &BTreeSet<u64>) -> Option<u64>
    ensures { MatchOption result (AreSubvolumes groups.now.keys) (λ last. IsLastAbove groups.now.keys last) }
{
    let last = *groups.last()?;
    if GroupId::from_number(last).level() == 0 {
        return None;
    }
    Some(last)
}
