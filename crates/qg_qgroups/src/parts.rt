// Calls on the hierarchy and on the limits that can fail for want of memory alone.
ghost use Rattle.std.specs.Prelude.{◌≡◌, IfOk, OnOk};
ghost use Rattle.qg_qgroups.specs.declared.fault.HierFault.TheVariants as why;
ghost use Rattle.qg_qgroups.specs.Groups.{IsSound};
ghost use Rattle.qg_qgroups.specs.Limit.{IsSetAt, SameHeld};

use crate::{HierFault, Hierarchy, Limits, PairList};
use qg_num::{GroupId, NoMemory, Which};

/// The fault of a call that can fail for want of memory alone.
pub(crate) fn want_of_memory(fault: HierFault) -> NoMemory
    requires { fault ≡ why.NoMemory }
{
    match fault {
        HierFault::NoMemory => NoMemory,
        _ => unreachable!(),
    }
}

/// The relations of a hierarchy.
pub(crate) fn relations_of(hierarchy: &Hierarchy) -> Result<PairList, NoMemory>
    ensures ok { IfOk result (λ pairs. pairs ≡ hierarchy.now.pairs) }
    ensures sound { IsSound hierarchy.now }
{
    match hierarchy.pairs() {
        Ok(pairs) => Ok(pairs),
        Err(fault) => Err(want_of_memory(fault)),
    }
}

/// Sets both limits of a group, in bytes, or takes them away.
pub(crate) fn set_both(
    limits: &mut Limits,
    group: GroupId,
    rfer: Option<u64>,
    excl: Option<u64>,
) -> Result<(), NoMemory>
    ensures ok { OnOk result (IsSetAt limits.old.maxima limits.new.maxima group (record { rfer = rfer; excl = excl })) }
    ensures held { SameHeld limits.old limits.new }
{
    limits.set(group, Which::Rfer, rfer)?;
    limits.set(group, Which::Excl, excl)
}
