// A disk in memory that never fails.
#![tactic(auto, unfolding(crate::specs::Call::history_of, crate::specs::Call::size_of))]

ghost use Rattle.std.specs.Prelude.{◌≡◌, ◌+◌, ◌≤◌, List, [], length, IsOk, OnOk};
ghost use Rattle.qg_device.specs.History.{Recorded, content, range};
ghost use Rattle.qg_disk.specs.Call.{history_of, size_of};

use crate::calls::Calls;
use crate::{Disk, DiskFault, Request};
use std::alloc::Global;
use std::marker::Model;

/// A disk in memory that never fails (this project's own): a read is always answered, and each other call
/// is, or wants memory. It keeps what was written, and no array of its length. A contract sees the calls
/// that changed it or made sure of it, the oldest first.
#[derive(Drop)]
pub struct SureDisk {
    calls: Calls,
}

impl Model for SureDisk {
    ghost use Rattle.std.specs.Prelude.{List};
    ghost use Rattle.qg_disk.specs.declared.call.Call.{Call};

    ghost Value = { List Call };

    ghost view = { λ d. d.calls };
}

impl SureDisk {
    /// An empty disk.
    pub fn new(alloc: Global) -> SureDisk
        ensures calls { result ≡ [] }
        ensures history { Recorded (history_of result) ≡ Recorded [] }
        ensures size { size_of result ≡ 0 }
    {
        SureDisk {
            calls: Calls::new(alloc),
        }
    }
}

impl Disk for SureDisk {
    ghost use Rattle.std.specs.Prelude.{true};
    ghost use Rattle.qg_disk.specs.Call.{sized_as_told};

    ghost history = { λ calls. Recorded (history_of calls) };

    ghost size = { size_of };

    ghost faults = { λ _. 0 };

    ghost takes_memory = { true };

    ghost sized = { sized_as_told };

    fn len(&self) -> u64 {
        self.calls.size()
    }

    fn read(&mut self, at: u64, buf: &mut [u8]) -> Result<(), DiskFault>
        requires { at + length buf.old ≤ size_of self.old }
        ensures always { IsOk result }
        ensures bytes { buf.new ≡ range at (length buf.old) (content (history_of self.old)) }
        ensures same { self.new ≡ self.old }
    {
        self.calls.read(at, buf);
        Ok(())
    }

    fn write_at(&mut self, at: u64, bytes: &[u8]) -> Result<(), DiskFault> {
        let bytes = self.calls.copied(bytes)?;
        self.calls.add(Request::Write { at, bytes }, false)?;
        Ok(())
    }

    fn cut(&mut self, len: u64) -> Result<(), DiskFault> {
        self.calls.add(Request::Cut { len }, false)?;
        Ok(())
    }

    fn sync(&mut self) -> Result<(), DiskFault> {
        self.calls.add(Request::Sync, false)?;
        Ok(())
    }
}
