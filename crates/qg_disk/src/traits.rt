// A disk as the layers above see it.
ghost use Rattle.std.specs.Prelude.{◌≡◌, ◌+◌, ◌^◌, ◌<◌, ◌≤◌, Bool, List, ℕ, length, max, OnOk, IsErrOf, IsTrue};
ghost use Rattle.qg_device.specs.Cause.{HasCause};
ghost use Rattle.qg_device.specs.History.{Event, History, Recorded, content, range};
ghost use Rattle.qg_disk.specs.Disk.{Writes, Cuts, Syncs};

use crate::DiskFault;

/// A disk of bytes (this project's own). Places and lengths are in bytes. It may tell what was done to
/// it, and so what it holds; one that tells nothing counts the calls that may change it. Whether it tells is
/// the same before and after each call.
pub trait Disk {
    /// What is known of what was done to it.
    ghost history: { Self → History };

    /// Its length in bytes.
    ghost size: { Self → ℕ };

    /// How many calls have failed, up to the last number of 64 bits.
    ghost faults: { Self → ℕ };

    /// Whether its calls take memory, so that they may want it. A disk whose calls take none never answers `NoMemory`.
    ghost takes_memory: { Bool };

    /// Its length in bytes.
    fn len(&self) -> u64
        ensures { result ≡ size self.now };

    /// Reads the bytes from `at` on. After an `Err` the buffer may hold anything.
    fn read(&mut self, at: u64, buf: &mut [u8]) -> Result<(), DiskFault>
        requires { at + length buf.old ≤ size self.old }
        ensures bytes { (events : List Event) → history self.old ≡ Recorded events
            → OnOk result (buf.new ≡ range at (length buf.old) (content events)) }
        ensures history { history self.new ≡ history self.old }
        ensures size { size self.new ≡ size self.old }
        ensures memory { IsErrOf result DiskFault.NoMemory → IsTrue takes_memory }
        ensures cause { HasCause DiskFault.Failed (faults self.old) (faults self.new) result };

    /// Writes bytes from `at` on, also past the end, where a gap reads as 0; one of no bytes past the end
    /// makes the disk that long. One that fails may leave any bytes in its range.
    fn write_at(&mut self, at: u64, bytes: &[u8]) -> Result<(), DiskFault>
        requires { at + length bytes.now < 2 ^ 64 }
        ensures event { Writes (history self.old) (history self.new) result at bytes.now }
        ensures size { OnOk result (size self.new ≡ max (size self.old) (at + length bytes.now)) }
        ensures no_less { size self.old ≤ size self.new }
        ensures no_more { size self.new ≤ max (size self.old) (at + length bytes.now) }
        ensures no_memory { IsErrOf result DiskFault.NoMemory → size self.new ≡ size self.old }
        ensures memory { IsErrOf result DiskFault.NoMemory → IsTrue takes_memory }
        ensures cause { HasCause DiskFault.Failed (faults self.old) (faults self.new) result };

    /// Cuts the disk to a length. One that fails may leave any bytes behind it, and makes the disk no
    /// longer.
    fn cut(&mut self, len: u64) -> Result<(), DiskFault>
        requires { len ≤ size self.old }
        ensures event { Cuts (history self.old) (history self.new) result (size self.old) len }
        ensures size { OnOk result (size self.new ≡ len) }
        ensures no_less { len ≤ size self.new }
        ensures no_more { size self.new ≤ size self.old }
        ensures no_memory { IsErrOf result DiskFault.NoMemory → size self.new ≡ size self.old }
        ensures memory { IsErrOf result DiskFault.NoMemory → IsTrue takes_memory }
        ensures cause { HasCause DiskFault.Failed (faults self.old) (faults self.new) result };

    /// Makes sure of what the disk holds, so that a crash leaves it. One that fails changes nothing.
    fn sync(&mut self) -> Result<(), DiskFault>
        ensures event { Syncs (history self.old) (history self.new) result }
        ensures size { size self.new ≡ size self.old }
        ensures memory { IsErrOf result DiskFault.NoMemory → IsTrue takes_memory }
        ensures cause { HasCause DiskFault.Failed (faults self.old) (faults self.new) result };

    /// Where it tells, its size is that of what it holds.
    ghost sized: { (disk : Self) (events : List Event) → history disk ≡ Recorded events
        → size disk ≡ length (content events) };
}
