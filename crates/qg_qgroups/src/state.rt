// Quota while it is on.
ghost use Rattle.std.specs.Prelude.{◌≡◌, ◌+◌, ◌^◌, ◌<◌, ℕ, List, [], ◌∷◌, None, Some, IfOk, OnOk};
ghost use Rattle.std.specs.List.{All};
ghost use Rattle.std.specs.List.Sorted.{IsStrictlySortedBy};
ghost use Rattle.std.specs.Ordering.{nat_cmp};
ghost use Rattle.qg_image.specs.Table.{keys_of};
ghost use Rattle.qg_image.specs.State.{Accepted};
ghost use Rattle.qg_image.specs.Limits.{over};
ghost use Rattle.qg_image.specs.Members.{hierarchy_of, level_of_group};
ghost use Rattle.qg_machine.specs.GroupChange.{inherited, new_group, quota_for, with_group};
ghost use Rattle.qg_qgroups.specs.Faults.{create_fault};
ghost use Rattle.qg_qgroups.specs.Groups.{IsSound};
ghost use Rattle.qg_qgroups.specs.Limit.{held_of, SameHeld};
ghost use Rattle.qg_qgroups.specs.Tracked.{path_of, HasGroup, HoldsAll, HoldsAtMost, IsTracked, SameButCounts};
ghost use Rattle.qg_qgroups.specs.Changing.{change_fault, group_changed, AreParents};
ghost use Rattle.qg_qgroups.specs.Judging.{counted_path, over_in, IfPath};

use crate::building::{groups_of, hierarchy_from, limits_from};
use crate::groups::{find_group, new_group, with_limits};
use crate::judging::{ReservationAnswer, answer_by, counted};
use crate::parts::want_of_memory;
use crate::{Hierarchy, Limits};
use qg_image::{Group, Quota};
use qg_num::{Command, Generation, GroupId, NoMemory, RootId, Sequence};
use std::alloc::Global;

/// Quota while it is on (btrfs-quota(8)), with what is looked up in it: what lies above each group, and the limits,
/// with what is held in them for reservations since the last commit. Counters, limits and reservations are in bytes.
///
/// A change to which memory is refused may be half done: nothing is said of the quota after that.
#[derive(Drop)]
pub struct QuotaState {
    /// The groups and the relations.
    pub quota: Quota,
    /// The same, by what lies above each group.
    pub hierarchy: Hierarchy,
    /// The limits of the groups, and the bytes that are held.
    pub limits: Limits,
}

impl QuotaState {
    /// Quota, of which nothing is held.
    pub fn new(alloc: Global, quota: Quota) -> Result<QuotaState, NoMemory>
        requires sound { IsSound (hierarchy_of quota) }
        ensures quota { IfOk result (λ state. state.quota ≡ quota) }
        ensures tracked { IfOk result IsTracked }
        ensures none { IfOk result (λ state. HoldsAll state []) }
    {
        let hierarchy = hierarchy_from(alloc, &quota)?;
        let limits = limits_from(alloc, quota.groups.as_slice())?;
        Ok(QuotaState {
            quota,
            hierarchy,
            limits,
        })
    }

    /// Quota as it is turned on in a generation: a group for each subvolume, of which nothing is counted.
    pub fn of_subvolumes<T>(
        alloc: Global,
        subs: &[(RootId, T)],
        stamp: Generation,
    ) -> Result<QuotaState, NoMemory>
        requires { IsStrictlySortedBy nat_cmp (keys_of subs.now) }
        ensures quota { IfOk result (λ state. state.quota ≡ quota_for stamp (keys_of subs.now)) }
        ensures tracked { IfOk result IsTracked }
        ensures none { IfOk result (λ state. HoldsAll state []) }
    {
        let groups = groups_of(alloc, subs, stamp)?;
        QuotaState::new(
            alloc,
            Quota {
                groups,
                pairs: Sequence::new(alloc),
            },
        )
    }

    /// Does what a command changes of groups, relations and limits in a generation. Any other command changes nothing.
    pub fn change(&mut self, command: &Command, stamp: Generation) -> Result<(), NoMemory>
        requires tracked { IsTracked self.old }
        requires free { change_fault (hierarchy_of self.old.quota) command.now ≡ None }
        ensures tracked { OnOk result (IsTracked self.new) }
        ensures quota { OnOk result (self.new.quota ≡ group_changed stamp command.now self.old.quota) }
        ensures held { SameHeld self.old.limits self.new.limits }
    {
        match command {
            Command::GroupCreate { group } => self.put(*group, new_group(stamp)),
            Command::GroupDestroy { group } => self.destroy(*group),
            Command::Assign { member, parent } => self.assign(*member, *parent),
            Command::Remove { member, parent } => self.remove(*member, *parent),
            Command::Limit { group, which, max } => self.limit(*group, *which, *max),
            _ => Ok(()),
        }
    }

    /// Makes the group of a subvolume that is made in a generation.
    pub fn add(&mut self, sub: RootId, stamp: Generation) -> Result<(), NoMemory>
        requires tracked { IsTracked self.old }
        requires free { create_fault (hierarchy_of self.old.quota) sub ≡ None }
        ensures tracked { OnOk result (IsTracked self.new) }
        ensures quota { OnOk result (self.new.quota ≡ with_group sub (new_group stamp) self.old.quota) }
        ensures held { SameHeld self.old.limits self.new.limits }
    {
        self.put(GroupId::from_number(sub.value()), new_group(stamp))
    }

    /// Makes the group of a snapshot that is made in a generation: it has the limits of the source's group, and becomes
    /// a member of some groups.
    pub fn inherit(
        &mut self,
        source: RootId,
        copy: RootId,
        parents: &[GroupId],
        stamp: Generation,
    ) -> Result<(), NoMemory>
        requires tracked { IsTracked self.old }
        requires free { create_fault (hierarchy_of self.old.quota) copy ≡ None }
        requires level { level_of_group copy ≡ 0 }
        requires parents { AreParents self.old.quota parents.now }
        ensures tracked { OnOk result (IsTracked self.new) }
        ensures quota { OnOk result (self.new.quota ≡ inherited stamp source copy parents.now self.old.quota) }
        ensures held { SameHeld self.old.limits self.new.limits }
    {
        let from = GroupId::from_number(source.value());
        let group = with_limits(
            new_group(stamp),
            find_group(self.quota.groups.as_slice(), from),
        );
        let member = GroupId::from_number(copy.value());
        self.put(member, group)?;
        self.assign_all(member, parents)
    }

    /// Judges a reservation of `n` bytes into a subvolume by the limits on the way up: the least group that would be
    /// over a limit of its, or else the groups that it counts in. Nothing is held yet.
    pub fn judge(&self, alloc: Global, sub: RootId, n: u64) -> Result<ReservationAnswer, NoMemory>
        requires tracked { IsTracked self.now }
        requires group { HasGroup self.now.quota sub }
        ensures value { IfOk result (λ judged. (pending : List Accepted) → HoldsAll self.now pending
            → over_in judged ≡ over self.now.quota pending sub n) }
        ensures path { IfOk result (λ judged. IfPath judged (λ path. path ≡ path_of self.now.quota sub)) }
    {
        let path = match self.hierarchy.above(GroupId::from_number(sub.value())) {
            Ok(path) => path,
            Err(fault) => return Err(want_of_memory(fault)),
        };
        let counted = counted(alloc, self.quota.groups.as_slice(), path.as_slice())?;
        let found = self.limits.over(counted.as_slice(), n);
        Ok(answer_by(found, path))
    }

    /// Holds `n` bytes more for each group of a path. What is then held for each fits in 64 bits.
    pub fn hold(&mut self, path: &[GroupId], n: u64) -> Result<(), NoMemory>
        requires tracked { IsTracked self.old }
        requires ascending { IsStrictlySortedBy nat_cmp path.now }
        requires fits { All (λ group. held_of self.old.limits group + n < 2 ^ 64) path.now }
        ensures tracked { IsTracked self.new }
        ensures quota { self.new.quota ≡ self.old.quota }
        ensures holds { OnOk result ((given : Accepted) (pending : List Accepted)
            → path.now ≡ path_of self.old.quota given.sub
            → HasGroup self.old.quota given.sub → given.amount ≡ n → HoldsAll self.old pending
            → HoldsAll self.new (given ∷ pending)) }
        ensures most { OnOk result ((bound : ℕ) → HoldsAtMost bound self.old → HoldsAtMost (bound + n) self.new) }
    {
        self.limits.hold(path, n)
    }

    /// Takes over quota as a commit counted it anew, with the same groups, limits and relations, and holds nothing any
    /// more. It takes no memory.
    pub fn settle(&mut self, quota: Quota)
        requires tracked { IsTracked self.old }
        requires counted { SameButCounts (Some self.old.quota) (Some quota) }
        ensures tracked { IsTracked self.new }
        ensures quota { self.new.quota ≡ quota }
        ensures none { HoldsAll self.new [] }
    {
        self.quota = quota;
        self.limits.release_all();
    }
}
