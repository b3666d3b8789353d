// The disk that the program is called over.
ghost use Rattle.std.specs.Prelude.{◌≡◌, ◌+◌, ◌<◌, ◌≤◌, ◌^◌, IsErrOf, OnOk, length, max};
ghost use Rattle.qg_device.specs.Cause.{HasCause};
ghost use Rattle.qg_device.specs.History.{Unrecorded, with_changes};
ghost use Rattle.qg_disk.specs.Call.{history_of};
ghost use Rattle.qg_disk.specs.Disk.{Cuts, Syncs, Writes};
ghost use Rattle.qg_disk.specs.MemDisk.{memory_faults, memory_size};

use qg_disk::{Disk, DiskFault, MemDisk};
use std::alloc::Global;
use std::marker::Model;

/// A disk in memory that tells nothing of what it holds (this project's own): from one of its calls on, some bytes are
/// read as others. There may be none.
#[derive(Drop)]
pub struct CaseDisk {
    disk: MemDisk,
    first: u64,
    place: u64,
    bytes: Vec<u8>,
}

impl Model for CaseDisk {
    ghost use Rattle.qg_disk.specs.MemDisk.{MemoryDisk};

    ghost Value = { MemoryDisk };

    ghost view = { λ d. d.disk };
}

impl CaseDisk {
    /// A disk of which all bytes are read as it holds them.
    pub(crate) fn new(alloc: Global, disk: MemDisk) -> CaseDisk {
        CaseDisk::changing(disk, u64::MAX, 0, Vec::new(alloc))
    }

    /// A disk of which these bytes are read at a place from the call of a number on.
    pub(crate) fn changing(disk: MemDisk, first: u64, place: u64, bytes: Vec<u8>) -> CaseDisk {
        CaseDisk {
            disk,
            first,
            place,
            bytes,
        }
    }

    /// The disk as it holds its bytes.
    pub(crate) fn into_disk(self) -> MemDisk {
        self.disk
    }
}

// Puts bytes that lie at a place into what was read from another place on.
fn put_over(bytes: &[u8], place: u64, at: u64, buf: &mut [u8]) {
    for (number, byte) in bytes.iter().enumerate() {
        let here = place.saturating_add(number as u64);
        if here >= at {
            if let Some(old) = buf.get_mut((here - at) as usize) {
                *old = *byte;
            }
        }
    }
}

impl Disk for CaseDisk {
    ghost use Rattle.std.specs.Prelude.{true};
    ghost use Rattle.qg_disk.specs.FileDisk.{sized_untold};

    ghost history = { λ disk. Unrecorded (with_changes (history_of disk.calls) 0) };

    ghost size = { memory_size };

    ghost faults = { memory_faults };

    ghost takes_memory = { true };

    ghost sized = { λ disk events told. sized_untold (memory_size disk) (with_changes (history_of disk.calls) 0) events
        told };

    fn len(&self) -> u64 {
        self.disk.len()
    }

    fn read(&mut self, at: u64, buf: &mut [u8]) -> Result<(), DiskFault> {
        self.disk.read(at, buf)?;
        if self.disk.calls().len() as u64 >= self.first {
            put_over(&self.bytes, self.place, at, buf);
        }
        Ok(())
    }

    fn write_at(&mut self, at: u64, bytes: &[u8]) -> Result<(), DiskFault> {
        self.disk.write_at(at, bytes)
    }

    fn cut(&mut self, len: u64) -> Result<(), DiskFault> {
        self.disk.cut(len)
    }

    fn sync(&mut self) -> Result<(), DiskFault> {
        self.disk.sync()
    }
}
