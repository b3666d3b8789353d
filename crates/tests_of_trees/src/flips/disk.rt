// A disk that changes by itself.
ghost use Rattle.std.specs.Prelude.{◌≡◌, ◌+◌, ◌<◌, ◌≤◌, ◌^◌, IsErrOf, OnOk, length, max};
ghost use Rattle.qg_device.specs.Cause.{HasCause};
ghost use Rattle.qg_device.specs.History.{Unrecorded, with_changes};
ghost use Rattle.qg_disk.specs.Call.{history_of, size_of};
ghost use Rattle.qg_disk.specs.Disk.{Cuts, Syncs, Writes};

use qg_disk::{Disk, DiskFault, SureDisk};
use std::alloc::Global;
use std::marker::Model;

/// Of what is read the byte at this place is changed.
const PLACE: usize = 200;

/// A disk in memory that tells nothing of what it holds. From one of its reads on, a bit of what each gives is another.
#[derive(Drop)]
pub struct FlipDisk {
    disk: SureDisk,
    from: u64,
    reads: u64,
}

impl Model for FlipDisk {
    ghost use Rattle.std.specs.Prelude.{List};
    ghost use Rattle.qg_disk.specs.declared.call.Call.{Call};

    ghost Value = { List Call };

    ghost view = { λ d. d.disk };
}

impl FlipDisk {
    /// An empty disk, of which each read gives what it holds.
    pub fn new(alloc: Global) -> FlipDisk {
        FlipDisk {
            disk: SureDisk::new(alloc),
            from: u64::MAX,
            reads: 0,
        }
    }

    /// The first `count` reads from now on give what it holds, and the others do not.
    pub fn flip_after(&mut self, count: u64)
        ensures { self.new ≡ self.old }
    {
        self.from = self.reads.saturating_add(count);
    }
}

impl Disk for FlipDisk {
    ghost use Rattle.std.specs.Prelude.{true};
    ghost use Rattle.qg_disk.specs.FileDisk.{sized_untold};

    ghost history = { λ calls. Unrecorded (with_changes (history_of calls) 0) };

    ghost size = { size_of };

    ghost faults = { λ _. 0 };

    ghost takes_memory = { true };

    ghost sized = { λ calls events told. sized_untold (size_of calls) (with_changes (history_of calls) 0) events told };

    fn len(&self) -> u64 {
        self.disk.len()
    }

    fn read(&mut self, at: u64, buf: &mut [u8]) -> Result<(), DiskFault> {
        self.disk.read(at, buf)?;
        if self.reads >= self.from && buf.len() > PLACE {
            buf[PLACE] ^= 1;
        }
        self.reads = self.reads.saturating_add(1);
        Ok(())
    }

    fn write_at(&mut self, at: u64, bytes: &[u8]) -> Result<(), DiskFault> {
        self.disk.write_at(at, bytes)
    }

    fn cut(&mut self, len: u64) -> Result<(), DiskFault> {
        self.disk.cut(len)
    }

    fn sync(&mut self) -> Result<(), DiskFault> {
        self.disk.sync()
    }
}
