// The counters that groups store.
ghost use Rattle.std.specs.Prelude.{◌≡◌, IfOk};
ghost use Rattle.qg_image.specs.Table.{keys_of};
ghost use Rattle.qg_qgroups.specs.Agreement.{counted_groups};

use qg_image::Group;
use qg_num::{Counters, GroupId, NoMemory, Sequence};
use std::alloc::Global;

/// The stored counters of groups, each under its group's number: those that changes of owners are to move.
pub fn stored_counters(
    alloc: Global,
    groups: &[(GroupId, Group)],
) -> Result<Sequence<(GroupId, Counters)>, NoMemory>
    ensures stored { IfOk result (λ counters. counters ≡ counted_groups groups.now) }
    ensures groups { IfOk result (λ counters. keys_of counters ≡ keys_of groups.now) }
{
    let mut counters = Sequence::with_capacity(alloc, groups.len())?;
    for entry in groups {
        counters.push((entry.0, entry.1.counters))?;
    }
    Ok(counters)
}
