// A disk in memory that fails where it is told to, and keeps a record of its calls.
#![tactic(auto, unfolding(crate::specs::Call::history_of, crate::specs::Call::size_of, crate::specs::MemDisk::fails_next))]

ghost use Rattle.std.specs.Prelude.{◌≡◌, ℕ, ◌+◌, ◌-◌, ◌^◌, ◌<◌, ◌≤◌, List, [], length, max, take, IfOk, OnOk};
ghost use Rattle.std.specs.Prelude.{IsErrOf};
ghost use Rattle.qg_device.specs.Cause.{HasCause};
ghost use Rattle.qg_device.specs.History.{Event, Recorded, content, range};
ghost use Rattle.qg_device.specs.Crash.{Leaves};
ghost use Rattle.qg_disk.specs.Call.{history_of, Fits};
ghost use Rattle.qg_disk.specs.Crashed.{crashed};
ghost use Rattle.qg_disk.specs.Disk.{Writes, Cuts, Syncs};
ghost use Rattle.qg_disk.specs.MemDisk.{memory_history, memory_size, memory_faults, fails_next, Answers};

use crate::calls::Calls;
use crate::replay::crashed_calls;
use crate::{Call, Disk, DiskFault, Request, Tear};
use qg_num::NoMemory;
use std::alloc::Global;
use std::marker::Model;

/// A disk in memory that fails where it is told to, and keeps a record of all its calls (this project's
/// own). It keeps what was written, and no array of its length.
///
/// The first call has the number 1; `len` is no call, and one that wanted memory was not made. A write
/// that is to fail leaves the first half of its bytes, rounded down; a cut that is to fail cuts; a read
/// that is to fail leaves anything in the buffer; a sync that is to fail does nothing.
#[derive(Drop)]
pub struct MemDisk {
    calls: Calls,
    failing: Vec<u64>,
    last: u64,
}

impl Model for MemDisk {
    ghost use Rattle.qg_disk.specs.MemDisk.{MemoryDisk};

    ghost Value = { MemoryDisk };

    ghost view = { λ d. record { calls = d.calls; failing = d.failing.items; last = d.last } };
}

impl MemDisk {
    /// An empty disk, of which no call is to fail.
    pub fn new(alloc: Global) -> MemDisk
        ensures calls { result.calls ≡ [] }
        ensures failing { result.failing ≡ [] }
        ensures last { result.last ≡ 2 ^ 64 - 1 }
        ensures history { memory_history result ≡ Recorded [] }
        ensures size { memory_size result ≡ 0 }
    {
        MemDisk {
            calls: Calls::new(alloc),
            failing: Vec::new(alloc),
            last: u64::MAX,
        }
    }

    /// The calls that it answered, by Ok or by `Failed`, the oldest first.
    pub fn calls(&self) -> &[Call]
        ensures { result.now ≡ self.now.calls }
    {
        self.calls.all()
    }

    /// The calls with these numbers are to fail, in place of those that were named before.
    pub fn fail_at(&mut self, calls: Vec<u64>)
        ensures { self.new ≡ record self.old { failing = calls.items } }
    {
        self.failing = calls;
    }

    /// Every call past the k-th is to fail.
    pub fn stop_after(&mut self, k: u64)
        ensures { self.new ≡ record self.old { last = k } }
    {
        self.last = k;
    }

    /// A new disk that holds what a crash after the first `k` calls leaves of this one, where it does the same to
    /// all that no sync had made sure of then. The new disk has made sure of all of it, and no call of it is to fail.
    /// Its record begins with calls that make what it holds, of which none failed.
    pub fn crash(&self, alloc: Global, k: u64, tear: Tear) -> Result<MemDisk, NoMemory>
        ensures content { IfOk result (λ disk. content (history_of disk.calls)
            ≡ crashed tear (history_of (take k self.now.calls))) }
        ensures sure { IfOk result (λ disk. (image : List ℕ) → Leaves (history_of disk.calls) image
            → image ≡ content (history_of disk.calls)) }
        ensures faults { IfOk result (λ disk. memory_faults disk ≡ 0) }
        ensures failing { IfOk result (λ disk. disk.failing ≡ []) }
        ensures last { IfOk result (λ disk. disk.last ≡ 2 ^ 64 - 1) }
    {
        let calls = self.calls.all();
        let count = k.min(calls.len() as u64) as usize;
        Ok(MemDisk {
            calls: crashed_calls(alloc, &calls[..count], tear)?,
            failing: Vec::new(alloc),
            last: u64::MAX,
        })
    }

    // Whether the next call is to fail.
    fn is_next_failing(&self) -> bool
        ensures { result ≡ fails_next self.now }
    {
        let number = self.calls.all().len() as u64 + 1;
        number > self.last || self.failing.contains(&number)
    }

    // Makes a call, which fails where it is to.
    fn make(&mut self, request: Request) -> Result<(), DiskFault>
        requires { Fits request }
        ensures { Answers self.old self.new request result }
    {
        let failed = self.is_next_failing();
        self.calls.add(request, failed)?;
        if failed {
            return Err(DiskFault::Failed);
        }
        Ok(())
    }
}

impl Disk for MemDisk {
    ghost use Rattle.std.specs.Prelude.{true};
    ghost use Rattle.qg_disk.specs.Call.{sized_as_told};

    ghost history = { memory_history };

    ghost size = { memory_size };

    ghost faults = { memory_faults };

    ghost takes_memory = { true };

    ghost sized = { λ disk events told. sized_as_told disk.calls events told };

    fn len(&self) -> u64 {
        self.calls.size()
    }

    fn read(&mut self, at: u64, buf: &mut [u8]) -> Result<(), DiskFault>
        requires { at + length buf.old ≤ memory_size self.old }
        ensures answer { Answers self.old self.new (Request.Read at (length buf.old)) result }
        ensures bytes { (events : List Event) → memory_history self.old ≡ Recorded events
            → OnOk result (buf.new ≡ range at (length buf.old) (content events)) }
        ensures history { memory_history self.new ≡ memory_history self.old }
        ensures size { memory_size self.new ≡ memory_size self.old }
        ensures cause { HasCause DiskFault.Failed
            (memory_faults self.old) (memory_faults self.new) result }
    {
        self.make(Request::Read {
            at,
            count: buf.len() as u64,
        })?;
        self.calls.read(at, buf);
        Ok(())
    }

    fn write_at(&mut self, at: u64, bytes: &[u8]) -> Result<(), DiskFault>
        requires { at + length bytes.now < 2 ^ 64 }
        ensures answer { Answers self.old self.new (Request.Write at bytes.now) result }
        ensures event { Writes (memory_history self.old) (memory_history self.new) result at bytes.now }
        ensures size { OnOk result (memory_size self.new
            ≡ max (memory_size self.old) (at + length bytes.now)) }
        ensures no_less { memory_size self.old ≤ memory_size self.new }
        ensures no_more { memory_size self.new ≤ max (memory_size self.old) (at + length bytes.now) }
        ensures no_memory { IsErrOf result DiskFault.NoMemory
            → memory_size self.new ≡ memory_size self.old }
        ensures cause { HasCause DiskFault.Failed
            (memory_faults self.old) (memory_faults self.new) result }
    {
        let bytes = self.calls.copied(bytes)?;
        self.make(Request::Write { at, bytes })
    }

    fn cut(&mut self, len: u64) -> Result<(), DiskFault>
        requires { len ≤ memory_size self.old }
        ensures answer { Answers self.old self.new (Request.Cut len) result }
        ensures event { Cuts (memory_history self.old) (memory_history self.new) result
            (memory_size self.old) len }
        ensures size { OnOk result (memory_size self.new ≡ len) }
        ensures no_less { len ≤ memory_size self.new }
        ensures no_more { memory_size self.new ≤ memory_size self.old }
        ensures no_memory { IsErrOf result DiskFault.NoMemory
            → memory_size self.new ≡ memory_size self.old }
        ensures cause { HasCause DiskFault.Failed
            (memory_faults self.old) (memory_faults self.new) result }
    {
        self.make(Request::Cut { len })
    }

    fn sync(&mut self) -> Result<(), DiskFault>
        ensures answer { Answers self.old self.new Request.Sync result }
        ensures event { Syncs (memory_history self.old) (memory_history self.new) result }
        ensures size { memory_size self.new ≡ memory_size self.old }
        ensures cause { HasCause DiskFault.Failed
            (memory_faults self.old) (memory_faults self.new) result }
    {
        self.make(Request::Sync)
    }
}
