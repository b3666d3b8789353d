// A disk that changes by itself.
ghost use Rattle.std.specs.Prelude.{◌≡◌, ◌+◌, ◌<◌, ◌≤◌, ◌^◌, IsErrOf, OnOk, length, max};
ghost use Rattle.qg_device.specs.Cause.{HasCause};
ghost use Rattle.qg_device.specs.History.{Unrecorded, with_changes};
ghost use Rattle.qg_disk.specs.Call.{history_of, size_of};
ghost use Rattle.qg_disk.specs.Disk.{Cuts, Syncs, Writes};

use qg_disk::{Disk, DiskFault, SureDisk};
use std::alloc::Global;
use std::marker::Model;

/// A disk in memory that tells nothing of what it holds. From one of its reads on a bit of the byte at a place is
/// another.
#[derive(Drop)]
pub struct FlipDisk {
    disk: SureDisk,
    place: u64,
    from: u64,
    reads: u64,
}

impl Model for FlipDisk {
    ghost use Rattle.std.specs.Prelude.{List};
    ghost use Rattle.qg_disk.specs.declared.call.Call.{Call};

    ghost Value = { List Call };

    ghost view = { λ d. d.disk };
}

impl FlipDisk {
    /// An empty disk, whose byte at `place` is another from the read with the number `from` on. The first read has the
    /// number 1.
    pub fn new(alloc: Global, place: u64, from: u64) -> FlipDisk {
        FlipDisk {
            disk: SureDisk::new(alloc),
            place,
            from,
            reads: 0,
        }
    }
}

impl Disk for FlipDisk {
    ghost use Rattle.std.specs.Prelude.{true};
    ghost use Rattle.qg_disk.specs.FileDisk.{sized_untold};

    ghost history = { λ calls. Unrecorded (with_changes (history_of calls) 0) };

    ghost size = { size_of };

    ghost faults = { λ _. 0 };

    ghost takes_memory = { true };

    ghost sized = { λ calls events told. sized_untold (size_of calls) (with_changes (history_of calls) 0) events told };

    fn len(&self) -> u64 {
        self.disk.len()
    }

    fn read(&mut self, at: u64, buf: &mut [u8]) -> Result<(), DiskFault> {
        self.disk.read(at, buf)?;
        self.reads = self.reads.saturating_add(1);
        if self.reads >= self.from && at <= self.place && self.place - at < buf.len() as u64 {
            buf[(self.place - at) as usize] ^= 1;
        }
        Ok(())
    }

    fn write_at(&mut self, at: u64, bytes: &[u8]) -> Result<(), DiskFault> {
        self.disk.write_at(at, bytes)
    }

    fn cut(&mut self, len: u64) -> Result<(), DiskFault> {
        self.disk.cut(len)
    }

    fn sync(&mut self) -> Result<(), DiskFault> {
        self.disk.sync()
    }
}
