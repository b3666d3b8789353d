// Reservations: judged by the limits on the way up, and held for what is pending.
ghost use Rattle.std.specs.Prelude.{◌≡◌, ◌+◌, ◌^◌, ◌<◌, ◌≤◌, ℕ, ◌∷◌, All, IfOk, IfSome, IsTrue, List, OnOk};
ghost use Rattle.qg_device.specs.History.{History};
ghost use Rattle.qg_image.specs.Table.{has_key};
ghost use Rattle.qg_image.specs.Record.{Record};
ghost use Rattle.qg_image.specs.State.{Accepted, State};
ghost use Rattle.qg_machine.specs.Refusals.{over_limit};
ghost use Rattle.qg_extents.specs.Table.{IsTable};
ghost use Rattle.qg_qgroups.specs.Judging.{IfPath};
ghost use Rattle.qg_qgroups.specs.OnOrOff.{path_in, refusal_in};
ghost use Rattle.qg_qgroups.specs.Tracked.{HasGroup, HoldsAtMost, IsTracked, quota_of};
ghost use Rattle.qg_qgroups.specs.Limit.{held_of};
ghost use Rattle.qg_open_image.specs.Keeping.{HoldsPending, IsFitted, IsKeptWith, most_reserved};

use qg_num::{GroupId, GroupList, NoMemory, RootId};
use qg_open_image::OpenImage;
use qg_qgroups::ReservationAnswer;

/// Judges a reservation of so many bytes into a subvolume. While quota is off no limit is in the way, and it counts in
/// no group.
pub(crate) fn judge(kept: &OpenImage, sub: RootId, n: u64) -> Result<ReservationAnswer, NoMemory>
    requires fitted { IsFitted kept.now }
    requires there { IsTrue (has_key sub kept.now.snapshots) }
    ensures value { IfOk result (λ judged. (state : State) (names : List Record) (history : History)
        → IsKeptWith kept.now state history names → refusal_in judged ≡ over_limit state sub n) }
    ensures path { IfOk result (λ judged. IfPath judged (λ path. path ≡ path_in (quota_of kept.now.quota) sub)) }
{
    match &kept.quota {
        None => Ok(ReservationAnswer::Path(GroupList::new(kept.alloc))),
        Some(quota) => quota.judge(kept.alloc, sub, n),
    }
}

/// One file command more is pending, which reserves so many bytes into the subvolume at hand: they are held for the
/// groups of its path.
pub(crate) fn accept(kept: &mut OpenImage, path: &[GroupId], n: u64) -> Result<(), NoMemory>
    requires fitted { IsFitted kept.old }
    requires few { kept.old.pending < 65536 }
    requires small { n ≤ most_reserved }
    requires path { path.now ≡ path_in (quota_of kept.old.quota) kept.old.fs.tree.owner }
    ensures fitted { OnOk result (IsFitted kept.new) }
    ensures rest { kept.new ≡ record kept.old { quota = kept.new.quota; pending = kept.new.pending } }
    ensures pending { OnOk result (kept.new.pending ≡ kept.old.pending + 1) }
    ensures same { quota_of kept.new.quota ≡ quota_of kept.old.quota }
    ensures holds { OnOk result ((given : Accepted) (pending : List Accepted) → given.sub ≡ kept.old.fs.tree.owner
        → given.amount ≡ n → HoldsPending kept.old pending → HoldsPending kept.new (given ∷ pending)) }
    ensures table { IsTable kept.new.fs.refs.refs }
{
    let _ascending = kept.fs.refs.refs().len();
    hold(kept, path, n)?;
    kept.pending += 1;
    Ok(())
}

// So many bytes more are held for some groups, while quota is on.
fn hold(kept: &mut OpenImage, path: &[GroupId], n: u64) -> Result<(), NoMemory>
    requires tracked { IfSome kept.old.quota IsTracked }
    requires path { (sub : ℕ) × (path.now ≡ path_in (quota_of kept.old.quota) sub)
        × IfSome (quota_of kept.old.quota) (λ quota. HasGroup quota sub) }
    requires fits { IfSome kept.old.quota (λ quota. All (λ group. held_of quota.limits group + n < 2 ^ 64) path.now) }
    ensures tracked { OnOk result (IfSome kept.new.quota IsTracked) }
    ensures same { quota_of kept.new.quota ≡ quota_of kept.old.quota }
    ensures most { OnOk result ((bound : ℕ) → IfSome kept.old.quota (HoldsAtMost bound)
        → IfSome kept.new.quota (HoldsAtMost (bound + n))) }
    ensures holds { OnOk result ((given : Accepted) (pending : List Accepted)
        → path.now ≡ path_in (quota_of kept.old.quota) given.sub → given.amount ≡ n
        → HoldsPending kept.old pending → HoldsPending kept.new (given ∷ pending)) }
    ensures rest { kept.new ≡ record kept.old { quota = kept.new.quota } }
{
    match &mut kept.quota {
        None => Ok(()),
        Some(quota) => quota.hold(path, n),
    }
}
