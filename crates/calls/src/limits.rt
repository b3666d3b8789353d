// Calls on the limits of groups.
use call_lines::{Fault, add_group, add_word, told, told_number};
use qg_num::{Counters, GroupId, Which};
use qg_qgroups::Limits;
use std::alloc::Global;

/// Holds so many bytes for one group, if the sum fits.
fn hold(limits: &mut Limits, group: GroupId, bytes: u64) -> Result<(), Fault> {
    if limits.held(group) > u64::MAX - bytes {
        return Err(Fault::Unmet);
    }
    Ok(limits.hold(&[group], bytes)?)
}

/// The first group of a way that would be over a limit. Of each group its two counters follow.
fn told_over(alloc: Global, limits: &Limits, bytes: u64, way: &[u64]) -> Result<String, Fault> {
    let mut path = Vec::new(alloc);
    for group in way.chunks_exact(3) {
        let [group, rfer, excl] = group else {
            return Err(Fault::Call);
        };
        let counters = Counters {
            rfer: *rfer,
            excl: *excl,
        };
        path.push((GroupId::from_number(*group), counters))?;
    }
    let Some((group, which)) = limits.over(&path, bytes) else {
        return told(alloc, "none");
    };
    let mut answer = String::new(alloc);
    add_group(alloc, &mut answer, group)?;
    add_word(&mut answer, format!(in alloc; "{which:?}")?.as_str())?;
    Ok(answer)
}

/// Sets a limit of a group, or takes it away.
fn set(limits: &mut Limits, which: Which, group: u64, max: Option<u64>) -> Result<(), Fault> {
    Ok(limits.set(GroupId::from_number(group), which, max)?)
}

/// Makes a call.
pub(crate) fn answer(
    alloc: Global,
    limits: &mut Limits,
    verb: &str,
    numbers: &[u64],
) -> Result<String, Fault> {
    match (verb, numbers) {
        ("over", [bytes, way @ ..]) => return told_over(alloc, limits, *bytes, way),
        ("held", [group]) => {
            return told_number(alloc, Some(limits.held(GroupId::from_number(*group))));
        }
        ("max-rfer", [group]) => {
            return told_number(alloc, limits.max(GroupId::from_number(*group), Which::Rfer));
        }
        ("max-excl", [group]) => {
            return told_number(alloc, limits.max(GroupId::from_number(*group), Which::Excl));
        }
        ("limit-rfer", [group, max]) => set(limits, Which::Rfer, *group, Some(*max))?,
        ("limit-excl", [group, max]) => set(limits, Which::Excl, *group, Some(*max))?,
        ("unlimit-rfer", [group]) => set(limits, Which::Rfer, *group, None)?,
        ("unlimit-excl", [group]) => set(limits, Which::Excl, *group, None)?,
        ("hold", [group, bytes]) => hold(limits, GroupId::from_number(*group), *bytes)?,
        ("release", []) => limits.release_all(),
        _ => return Err(Fault::Call),
    }
    told(alloc, "done")
}
