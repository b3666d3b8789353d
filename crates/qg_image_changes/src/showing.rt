// The stored counters are shown.
ghost use Rattle.std.specs.Prelude.{◌≡◌, IfOk, map};
ghost use Rattle.qg_machine.specs.Step.{row_of};
ghost use Rattle.qg_qgroups.specs.Tracked.{quota_of};
ghost use Rattle.qg_open_image.specs.Answering.{shown};

use qg_image::Group;
use qg_num::{Answer, GroupId, NoMemory, Refusal, Row, Rows};
use qg_qgroups::QuotaState;
use std::alloc::{AllocError, Global};

/// The stored counters and limits of all groups, ascending by number; or that quota is off.
pub fn show(alloc: Global, quota: &Option<QuotaState>) -> Result<Answer, NoMemory>
    ensures { IfOk result (λ answer. answer ≡ shown (quota_of quota.now)) }
{
    match quota {
        None => Ok(Answer::Refused(Refusal::NoQuota)),
        Some(state) => {
            let rows = rows_of(alloc, state.quota.groups.as_slice())?;
            Ok(Answer::Shown(rows))
        }
    }
}

// A row for each group.
fn rows_of(alloc: Global, groups: &[(GroupId, Group)]) -> Result<Rows, AllocError>
    ensures { IfOk result (λ rows. rows ≡ map row_of groups.now) }
{
    let mut rows = Rows::new(alloc);
    for entry in groups {
        rows.push(Row {
            group: entry.0,
            counters: entry.1.counters,
            max_rfer: entry.1.max_rfer,
            max_excl: entry.1.max_excl,
        })?;
    }
    Ok(rows)
}
