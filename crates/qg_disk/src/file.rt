// A disk that is a file.
ghost use Rattle.std.specs.Prelude.{◌≡◌, ◌+◌, ◌^◌, ◌<◌, ◌≤◌, length, max, OnOk, OnErr};
ghost use Rattle.qg_device.specs.Cause.{HasCause};
ghost use Rattle.qg_device.specs.History.{Unrecorded, one_more};
ghost use Rattle.qg_disk.specs.FileDisk.{CountsFault};

use crate::{Disk, DiskFault};
use std::fs::{File, OpenFile};
use std::io;
use std::io::{ErrorKind, Read, Seek, SeekFrom, Write};
use std::marker::Model;

/// A disk that is a file (this project's own). It tells nothing of what the file holds, and never wants
/// memory. A write of 0 bytes and a short read are faults.
///
/// It keeps the length itself: first what it was made with, then what each call made of it. A write that
/// fails counts the bytes that the file took before, so that the length stays the file's, and what is
/// written past it later leaves a gap of zeros. A contract sees the length, the count of calls that may
/// change the file, and the count of faults.
#[derive(Drop)]
pub struct FileDisk<F = File> {
    file: F,
    len: u64,
    changes: u64,
    faults: u64,
}

impl<F> Model for FileDisk<F> {
    ghost use Rattle.qg_disk.specs.FileDisk.{KnownFile};

    ghost Value = { KnownFile };

    ghost view = { λ d. record { len = d.len; changes = d.changes; faults = d.faults } };
}

impl<F: Read + Write + Seek + OpenFile> FileDisk<F> {
    /// The file, whose length is `len`.
    pub fn new(file: F, len: u64) -> FileDisk<F>
        ensures { result ≡ record { len = len; changes = 0; faults = 0 } }
    {
        FileDisk {
            file,
            len,
            changes: 0,
            faults: 0,
        }
    }

    // Counts an error of the file as a fault.
    fn counted(&mut self, done: io::Result<()>) -> Result<(), DiskFault>
        ensures len { self.new.len ≡ self.old.len }
        ensures changes { self.new.changes ≡ self.old.changes }
        ensures counts { CountsFault self.old self.new result }
        ensures cause { HasCause DiskFault.Failed self.old.faults self.new.faults result }
    {
        match done {
            Ok(()) => Ok(()),
            Err(_) => Err(fault(&mut self.faults)),
        }
    }
}

// Counts one more, up to the last number of 64 bits.
fn count(number: &mut u64)
    ensures counted { number.new ≡ one_more number.old }
    ensures no_less { number.old ≤ number.new }
{
    *number = number.saturating_add(1);
}

// Counts a fault, up to the last number of 64 bits.
fn fault(faults: &mut u64) -> DiskFault
    ensures failed { result ≡ DiskFault.Failed }
    ensures counted { faults.new ≡ one_more faults.old }
    ensures no_less { faults.old ≤ faults.new }
{
    count(faults);
    DiskFault::Failed
}

// Fills the buffer from a place of the file on. A file that ends before is an error.
fn read_whole<F: Read + Seek>(file: &mut F, at: u64, buf: &mut [u8]) -> io::Result<()> {
    file.seek(SeekFrom::Start(at))?;
    let mut done = 0;
    while done < buf.len() {
        let count = file.read(&mut buf[done..])?;
        if count == 0 {
            return Err(io::Error::from(ErrorKind::UnexpectedEof));
        }
        done += count;
    }
    Ok(())
}

// Writes the bytes from a place of the file on, and says how many of them the file took.
fn write_whole<F: Write + Seek>(file: &mut F, at: u64, bytes: &[u8]) -> usize
    ensures { result ≤ length bytes.now }
{
    let mut done = 0;
    if file.seek(SeekFrom::Start(at)).is_err() {
        return done;
    }
    while done < bytes.len() {
        match file.write(&bytes[done..]) {
            Ok(count) if count > 0 => done += count,
            _ => return done,
        }
    }
    done
}

impl<F: Read + Write + Seek + OpenFile> Disk for FileDisk<F> {
    ghost use Rattle.std.specs.Prelude.{false};
    ghost use Rattle.qg_disk.specs.FileDisk.{sized_untold};

    ghost history = { λ d. Unrecorded d.changes };

    ghost size = { λ d. d.len };

    ghost faults = { λ d. d.faults };

    ghost takes_memory = { false };

    ghost sized = { λ d events told. sized_untold d.len d.changes events told };

    fn len(&self) -> u64 {
        self.len
    }

    fn read(&mut self, at: u64, buf: &mut [u8]) -> Result<(), DiskFault>
        requires { at + length buf.old ≤ self.old.len }
        ensures size { self.new.len ≡ self.old.len }
        ensures changes { self.new.changes ≡ self.old.changes }
        ensures counts { CountsFault self.old self.new result }
        ensures cause { HasCause DiskFault.Failed self.old.faults self.new.faults result }
    {
        let done = read_whole(&mut self.file, at, buf);
        self.counted(done)
    }

    fn write_at(&mut self, at: u64, bytes: &[u8]) -> Result<(), DiskFault>
        requires { at + length bytes.now < 2 ^ 64 }
        ensures size { OnOk result (self.new.len ≡ max self.old.len (at + length bytes.now)) }
        ensures no_less { self.old.len ≤ self.new.len }
        ensures no_more { self.new.len ≤ max self.old.len (at + length bytes.now) }
        ensures changes { self.new.changes ≡ one_more self.old.changes }
        ensures counts { CountsFault self.old self.new result }
        ensures cause { HasCause DiskFault.Failed self.old.faults self.new.faults result }
    {
        count(&mut self.changes);
        if self.len < at {
            let done = self.file.set_len(at);
            self.counted(done)?;
            self.len = at;
        }
        let done = write_whole(&mut self.file, at, bytes);
        self.len = self.len.max(at + done as u64);
        if done < bytes.len() {
            return Err(fault(&mut self.faults));
        }
        Ok(())
    }

    fn cut(&mut self, len: u64) -> Result<(), DiskFault>
        requires { len ≤ self.old.len }
        ensures ok { OnOk result (self.new.len ≡ len) }
        ensures err { OnErr result (self.new.len ≡ self.old.len) }
        ensures changes { self.new.changes ≡ one_more self.old.changes }
        ensures counts { CountsFault self.old self.new result }
        ensures cause { HasCause DiskFault.Failed self.old.faults self.new.faults result }
    {
        count(&mut self.changes);
        let done = self.file.set_len(len);
        self.counted(done)?;
        self.len = len;
        Ok(())
    }

    fn sync(&mut self) -> Result<(), DiskFault>
        ensures size { self.new.len ≡ self.old.len }
        ensures changes { self.new.changes ≡ self.old.changes }
        ensures counts { CountsFault self.old self.new result }
        ensures cause { HasCause DiskFault.Failed self.old.faults self.new.faults result }
    {
        let done = self.file.sync_all();
        self.counted(done)
    }
}
