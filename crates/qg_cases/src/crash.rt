// What crashes leave of a disk in memory.
use crate::change::{cut, set};
use qg_case_file::NoMemory;
use qg_disk::{Call, MemDisk, Request, Tear};
use std::alloc::Global;

/// The first so many calls of a disk, and all where there are fewer.
pub(crate) fn first_calls(disk: &MemDisk, count: u64) -> &[Call] {
    let calls = disk.calls();
    match calls.get(..count as usize) {
        Some(first) => first,
        None => calls,
    }
}

/// The calls that changed a disk, of which no sync made sure.
pub(crate) fn unsure_calls<'a>(
    alloc: Global,
    calls: &'a [Call],
) -> Result<Vec<&'a Call>, NoMemory> {
    let mut unsure = Vec::new(alloc);
    for call in calls {
        match &call.request {
            Request::Sync => {
                if !call.failed {
                    unsure.clear();
                }
            }
            Request::Write { .. } | Request::Cut { .. } => {
                if !call.failed {
                    unsure.push(call)?;
                }
            }
            Request::Read { .. } => {}
        }
    }
    Ok(unsure)
}

// Does a call again; whether that could be done.
fn redo(disk: &mut MemDisk, call: &Call) -> bool {
    match &call.request {
        Request::Write { at, bytes } => set(disk, *at, bytes.as_slice()),
        Request::Cut { len } => cut(disk, *len),
        Request::Read { .. } | Request::Sync => true,
    }
}

/// What a crash behind the first so many calls of a disk leaves, where it does the same to all that no sync had made
/// sure of. There is none where there are not so many calls.
pub(crate) fn crashed(
    alloc: Global,
    disk: &MemDisk,
    count: u64,
    tear: Tear,
) -> Result<Option<MemDisk>, NoMemory> {
    if count > disk.calls().len() as u64 {
        return Ok(None);
    }
    let left = disk.crash(alloc, count, tear).map_err(|_| NoMemory)?;
    Ok(Some(left))
}

/// What it leaves where one change is lost, of those that no sync had made sure of, and no other. The first of them has
/// the number 1. There is none where there are not so many changes.
pub(crate) fn crashed_without(
    alloc: Global,
    disk: &MemDisk,
    count: u64,
    lost: u64,
) -> Result<Option<MemDisk>, NoMemory> {
    let unsure = unsure_calls(alloc, first_calls(disk, count))?;
    if lost == 0 || lost > unsure.len() as u64 {
        return Ok(None);
    }
    let Some(mut left) = crashed(alloc, disk, count, Tear::Old)? else {
        return Ok(None);
    };
    let mut number = 0u64;
    for call in unsure.iter() {
        number = number.saturating_add(1);
        if number != lost && !redo(&mut left, call) {
            return Ok(None);
        }
    }
    Ok(Some(left))
}
