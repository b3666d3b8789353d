// Calls on groups and their relations.
use call_lines::{Fault, add_group, add_word, told};
use qg_num::GroupId;
use qg_qgroups::{HierFault, Hierarchy};
use std::alloc::Global;

/// What a call gives that cannot be refused here.
fn given<T: Drop>(answer: Result<T, HierFault>) -> Result<T, Fault> {
    match answer {
        Ok(value) => Ok(value),
        Err(_) => Err(Fault::Failed),
    }
}

/// The answer of a change.
fn told_change(alloc: Global, change: Result<(), HierFault>) -> Result<String, Fault> {
    match change {
        Ok(()) => told(alloc, "done"),
        Err(fault) => Ok(format!(in alloc; "{fault:?}")?),
    }
}

/// The groups of a list.
fn told_groups(alloc: Global, groups: &[GroupId]) -> Result<String, Fault> {
    let mut answer = String::new(alloc);
    for group in groups {
        add_group(alloc, &mut answer, *group)?;
    }
    Ok(answer)
}

/// All relations, each as a member and its parent.
fn told_pairs(alloc: Global, hierarchy: &Hierarchy) -> Result<String, Fault> {
    let mut answer = String::new(alloc);
    for (member, parent) in given(hierarchy.pairs())?.as_slice() {
        if !answer.is_empty() {
            add_word(&mut answer, "/")?;
        }
        add_group(alloc, &mut answer, *member)?;
        add_group(alloc, &mut answer, *parent)?;
    }
    Ok(answer)
}

/// The subvolumes below a group.
fn told_members(alloc: Global, hierarchy: &Hierarchy, group: GroupId) -> Result<String, Fault> {
    let mut answer = String::new(alloc);
    for sub in given(hierarchy.members(group))?.as_slice() {
        add_word(&mut answer, format!(in alloc; "{}", sub.value())?.as_str())?;
    }
    Ok(answer)
}

/// Makes a call.
pub(crate) fn answer(
    alloc: Global,
    hierarchy: &mut Hierarchy,
    verb: &str,
    numbers: &[u64],
) -> Result<String, Fault> {
    match (verb, numbers) {
        ("groups", []) => told_groups(alloc, given(hierarchy.groups())?.as_slice()),
        ("relations", []) => told_pairs(alloc, hierarchy),
        ("above", [group]) => {
            let above = given(hierarchy.above(GroupId::from_number(*group)))?;
            told_groups(alloc, above.as_slice())
        }
        ("members", [group]) => told_members(alloc, hierarchy, GroupId::from_number(*group)),
        ("create", [group]) => {
            told_change(alloc, hierarchy.create(GroupId::from_number(*group)))
        }
        ("destroy", [group]) => {
            told_change(alloc, hierarchy.destroy(GroupId::from_number(*group)))
        }
        ("assign", [member, parent]) => {
            let (member, parent) = (GroupId::from_number(*member), GroupId::from_number(*parent));
            told_change(alloc, hierarchy.assign(member, parent))
        }
        ("remove", [member, parent]) => {
            let (member, parent) = (GroupId::from_number(*member), GroupId::from_number(*parent));
            told_change(alloc, hierarchy.remove(member, parent))
        }
        _ => Err(Fault::Call),
    }
}
