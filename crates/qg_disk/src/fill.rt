// What a disk in memory holds, read out of its calls.
#![tactic(auto, unfolding(crate::specs::Call::history_of))]

ghost use Rattle.std.specs.Prelude.{◌+◌, ◌^◌, ◌<◌, List, ℕ, length, take};
ghost use Rattle.qg_device.specs.History.{Event, content, overlay};
ghost use Rattle.qg_disk.specs.Buffer.{Shows};
ghost use Rattle.qg_disk.specs.Call.{after_request, history_of};

use crate::{Call, Request};

// Lays bytes that were written at a place over a buffer that begins at `start`.
fn lay(buf: &mut [u8], start: u64, at: u64, bytes: &[u8])
    requires { start + length buf.old < 2 ^ 64 }
    ensures { (old : List ℕ) → Shows start old buf.old
        → Shows start (overlay at bytes.now old) buf.new }
{
    let low = start.max(at);
    let high = (start + buf.len() as u64).min(at.saturating_add(bytes.len() as u64));
    if low < high {
        let from = (low - at) as usize;
        let to = (low - start) as usize;
        let count = (high - low) as usize;
        buf[to..to + count].copy_from_slice(&bytes[from..from + count]);
    }
}

// Blanks what lies past a cut in a buffer that begins at `start`.
fn blank(buf: &mut [u8], start: u64, len: u64)
    requires { start + length buf.old < 2 ^ 64 }
    ensures { (old : List ℕ) → Shows start old buf.old → Shows start (take len old) buf.new }
{
    let from = len.saturating_sub(start);
    if from < buf.len() as u64 {
        buf[from as usize..].fill(0);
    }
}

// Does to the buffer what a call did to the disk.
fn apply(call: &Call, start: u64, buf: &mut [u8])
    requires { start + length buf.old < 2 ^ 64 }
    ensures { (older : List Event) → Shows start (content older) buf.old
        → Shows start (content (after_request call.now.request call.now.failed older)) buf.new }
{
    match &call.request {
        Request::Write { at, bytes } => {
            let bytes = bytes.as_slice();
            if call.failed {
                lay(buf, start, *at, &bytes[..bytes.len() / 2]);
            } else {
                lay(buf, start, *at, bytes);
            }
        }
        Request::Cut { len } => blank(buf, start, *len),
        Request::Read { .. } | Request::Sync => {}
    }
}

/// Fills a buffer with what the calls leave from `start` on, and 0 past its end.
pub fn fill(calls: &[Call], start: u64, buf: &mut [u8])
    requires { start + length buf.old < 2 ^ 64 }
    ensures { Shows start (content (history_of calls.now)) buf.new }
{
    buf.fill(0);
    for call in calls {
        apply(call, start, buf);
    }
}
