// What a crash leaves of a disk in memory, made by doing its calls again.
#![tactic(auto, unfolding(crate::specs::Call::history_of))]

ghost use Rattle.std.specs.Prelude.{◌≡◌, ◌≤◌, All, List, ◌∷◌, count_by, drop, false, length, take, IfOk, OnOk, OnErr};
ghost use Rattle.std.specs.List.{list_any};
ghost use Rattle.qg_device.specs.History.{Event, Synced, content};
ghost use Rattle.qg_disk.specs.Call.{history_of, Fits};
ghost use Rattle.qg_disk.specs.Crashed.{crashed};
ghost use Rattle.qg_disk.specs.Redone.{is_sync, with_call_torn, with_calls_torn};
ghost use Rattle.qg_disk.specs.declared.call.Call.{Call};
ghost use Rattle.qg_disk.specs.declared.tear.Tear.{Tear};
ghost use Rattle.qg_disk.specs.declared.tear.Tear.TheVariants as tear;

use crate::calls::Calls;
use crate::{Call, Request, Tear};
use std::alloc::{AllocError, Global};

// Whether a call is a sync that was answered Ok.
fn is_sync(call: &Call) -> bool
    ensures { result ≡ is_sync call.now }
{
    match &call.request {
        Request::Sync => !call.failed,
        Request::Read { .. } | Request::Write { .. } | Request::Cut { .. } => false,
    }
}

// How many calls there are up to the last sync that was answered Ok, and none without one.
fn count_to_sync(calls: &[Call]) -> usize
    ensures within { result ≤ length calls.now }
    ensures settled { (tear : Tear) → crashed tear (history_of (take result calls.now))
        ≡ content (history_of (take result calls.now)) }
    ensures behind { list_any is_sync (drop result calls.now) ≡ false }
{
    let mut count = calls.len();
    while count > 0 {
        if is_sync(&calls[count - 1]) {
            return count;
        }
        count -= 1;
    }
    0
}

// Does a write again, of which the first bytes are done.
fn redo_write(
    disk: &mut Calls,
    at: u64,
    bytes: &[u8],
    failed: bool,
    tear: Tear,
) -> Result<(), AllocError>
    requires { Fits (Request.Write at bytes.now) }
    ensures ok { OnOk result (content (history_of disk.new) ≡ with_call_torn tear
        (content (history_of disk.old)) (record { request = Request.Write at bytes.now; failed = failed })) }
    ensures faults { count_by (λ call. call.failed) disk.new ≡ count_by (λ call. call.failed) disk.old }
{
    let written = if failed { bytes.len() / 2 } else { bytes.len() };
    let count = match tear {
        Tear::Old => 0,
        Tear::New => written,
        Tear::Split(n) => n.min(written),
    };
    if count > 0 || (tear == Tear::New && !failed) {
        let bytes = disk.copied(&bytes[..count])?;
        disk.add(Request::Write { at, bytes }, false)?;
    }
    Ok(())
}

// Does a call again, as far as the tear says.
fn redo(disk: &mut Calls, call: &Call, tear: Tear) -> Result<(), AllocError>
    requires { Fits call.now.request }
    ensures ok { OnOk result (content (history_of disk.new)
        ≡ with_call_torn tear (content (history_of disk.old)) call.now) }
    ensures faults { count_by (λ call. call.failed) disk.new ≡ count_by (λ call. call.failed) disk.old }
{
    match &call.request {
        Request::Write { at, bytes } => redo_write(disk, *at, bytes.as_slice(), call.failed, tear),
        Request::Cut { len } => {
            if tear != Tear::Old {
                disk.add(Request::Cut { len: *len }, false)?;
            }
            Ok(())
        }
        Request::Read { .. } | Request::Sync => Ok(()),
    }
}

// Does calls again, the oldest first.
fn redo_all(disk: &mut Calls, calls: &[Call], tear: Tear) -> Result<(), AllocError>
    requires { All (λ call. Fits call.request) calls.now }
    ensures ok { OnOk result (content (history_of disk.new)
        ≡ with_calls_torn tear calls.now (content (history_of disk.old))) }
    ensures faults { count_by (λ call. call.failed) disk.new ≡ count_by (λ call. call.failed) disk.old }
{
    for call in calls {
        redo(disk, call, tear)?;
    }
    Ok(())
}

/// Calls of a disk that holds what a crash leaves after these, and has made sure of it. None of them failed.
pub fn crashed_calls(alloc: Global, calls: &[Call], tear: Tear) -> Result<Calls, AllocError>
    requires { All (λ call. Fits call.request) calls.now }
    ensures content { IfOk result (λ disk. content (history_of disk) ≡ crashed tear (history_of calls.now)) }
    ensures sure { IfOk result (λ disk. (older : List Event) × (history_of disk ≡ Synced ∷ older)) }
    ensures faults { IfOk result (λ disk. count_by (λ call. call.failed) disk ≡ 0) }
{
    let mut disk = Calls::new(alloc);
    let count = count_to_sync(calls);
    redo_all(&mut disk, &calls[..count], Tear::New)?;
    redo_all(&mut disk, &calls[count..], tear)?;
    disk.add(Request::Sync, false)?;
    Ok(disk)
}
