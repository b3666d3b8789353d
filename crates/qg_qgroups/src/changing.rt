// Changes of groups, relations and limits, each of the quota and of what is looked up in it.
ghost use Rattle.std.specs.Prelude.{◌≡◌, None, OnOk};
ghost use Rattle.std.specs.List.{fold};
ghost use Rattle.qg_image.specs.Members.{hierarchy_of};
ghost use Rattle.qg_machine.specs.GroupChange.{assigned, destroyed, limited, unassigned, with_group};
ghost use Rattle.qg_qgroups.specs.Faults.{assign_fault, create_fault, destroy_fault, remove_fault};
ghost use Rattle.qg_qgroups.specs.Limit.{SameHeld};
ghost use Rattle.qg_qgroups.specs.Tracked.{IsTracked};
ghost use Rattle.qg_qgroups.specs.Changing.{CanJoin};

use crate::QuotaState;
use crate::groups::{find_group, put_group, take_group, with_limit};
use crate::parts::{relations_of, set_both, want_of_memory};
use qg_image::Group;
use qg_num::{GroupId, NoMemory, Which};

impl QuotaState {
    /// Puts a group that isn't there among the others.
    pub(crate) fn put(&mut self, number: GroupId, group: Group) -> Result<(), NoMemory>
        requires tracked { IsTracked self.old }
        requires free { create_fault (hierarchy_of self.old.quota) number ≡ None }
        ensures tracked { OnOk result (IsTracked self.new) }
        ensures quota { OnOk result (self.new.quota ≡ with_group number group self.old.quota) }
        ensures held { SameHeld self.old.limits self.new.limits }
    {
        let (rfer, excl) = (group.max_rfer, group.max_excl);
        if let Err(fault) = self.hierarchy.create(number) {
            return Err(want_of_memory(fault));
        }
        put_group(&mut self.quota.groups, number, group)?;
        set_both(&mut self.limits, number, rfer, excl)?;
        self.quota.pairs = relations_of(&self.hierarchy)?;
        Ok(())
    }

    /// Takes a group without members away, with its relations to its parents and its limits.
    pub(crate) fn destroy(&mut self, number: GroupId) -> Result<(), NoMemory>
        requires tracked { IsTracked self.old }
        requires free { destroy_fault (hierarchy_of self.old.quota) number ≡ None }
        ensures tracked { OnOk result (IsTracked self.new) }
        ensures quota { OnOk result (self.new.quota ≡ destroyed number self.old.quota) }
        ensures held { SameHeld self.old.limits self.new.limits }
    {
        if self.hierarchy.destroy(number).is_err() {
            unreachable!()
        }
        take_group(&mut self.quota.groups, number);
        set_both(&mut self.limits, number, None, None)?;
        self.quota.pairs = relations_of(&self.hierarchy)?;
        Ok(())
    }

    /// Makes a group a member of another.
    pub(crate) fn assign(&mut self, member: GroupId, parent: GroupId) -> Result<(), NoMemory>
        requires tracked { IsTracked self.old }
        requires free { assign_fault (hierarchy_of self.old.quota) member parent ≡ None }
        ensures tracked { OnOk result (IsTracked self.new) }
        ensures quota { OnOk result (self.new.quota ≡ assigned member parent self.old.quota) }
        ensures held { SameHeld self.old.limits self.new.limits }
    {
        if let Err(fault) = self.hierarchy.assign(member, parent) {
            return Err(want_of_memory(fault));
        }
        self.quota.pairs = relations_of(&self.hierarchy)?;
        Ok(())
    }

    /// Makes a group that is a member of no other a member of each of some.
    pub(crate) fn assign_all(
        &mut self,
        member: GroupId,
        parents: &[GroupId],
    ) -> Result<(), NoMemory>
        requires tracked { IsTracked self.old }
        requires member { CanJoin self.old.quota member parents.now }
        ensures tracked { OnOk result (IsTracked self.new) }
        ensures quota { OnOk result
            (self.new.quota ≡ fold (λ made parent. assigned member parent made) self.old.quota parents.now) }
        ensures held { SameHeld self.old.limits self.new.limits }
    {
        for parent in parents {
            self.assign(member, *parent)?;
        }
        Ok(())
    }

    /// Ends that a group is a member of another.
    pub(crate) fn remove(&mut self, member: GroupId, parent: GroupId) -> Result<(), NoMemory>
        requires tracked { IsTracked self.old }
        requires free { remove_fault (hierarchy_of self.old.quota) member parent ≡ None }
        ensures tracked { OnOk result (IsTracked self.new) }
        ensures quota { OnOk result (self.new.quota ≡ unassigned member parent self.old.quota) }
        ensures held { SameHeld self.old.limits self.new.limits }
    {
        if self.hierarchy.remove(member, parent).is_err() {
            unreachable!()
        }
        self.quota.pairs = relations_of(&self.hierarchy)?;
        Ok(())
    }

    /// Sets a limit of a group, in bytes, or takes it away.
    pub(crate) fn limit(
        &mut self,
        number: GroupId,
        which: Which,
        max: Option<u64>,
    ) -> Result<(), NoMemory>
        requires tracked { IsTracked self.old }
        ensures tracked { OnOk result (IsTracked self.new) }
        ensures quota { OnOk result (self.new.quota ≡ limited number which max self.old.quota) }
        ensures held { SameHeld self.old.limits self.new.limits }
    {
        let Some(group) = find_group(self.quota.groups.as_slice(), number) else {
            return Ok(());
        };
        put_group(
            &mut self.quota.groups,
            number,
            with_limit(group, which, max),
        )?;
        self.limits.set(number, which, max)
    }
}
