// Each public call once with ample memory, and what no clause says: what a file gives back.
ghost use Rattle.std.specs.Prelude.{◌≤◌};

use qg_disk::{Call, Disk, DiskFault, FileDisk, MemDisk, Request, SureDisk, Tear};
use std::fs::{Metadata, OpenFile, OpenOptions};
use std::io::{Read, Seek, SeekFrom, Write};
use std::process::Abort;
use std::test::Fail;
use std::{fs, io};

// A call, with the bytes that it reads or writes.
#[derive(Drop)]
enum Step {
    Read(u64, &'static [u8]),
    Write(u64, &'static [u8]),
    Cut(u64),
    Sync,
}

// A call, whether it is to fail, and the length after it.
#[derive(Drop)]
struct Row {
    step: Step,
    failed: bool,
    len: u64,
}

fn done(step: Step, len: u64) -> Row {
    Row {
        step,
        failed: false,
        len,
    }
}

fn fails(step: Step, len: u64) -> Row {
    Row {
        step,
        failed: true,
        len,
    }
}

fn read_back<D: Disk>(
    rt: &impl Abort,
    disk: &mut D,
    at: u64,
    want: &[u8],
) -> Result<(), DiskFault> {
    let mut buf = [255u8; 16];
    assert!(rt; want.len() <= 16);
    assert!(rt; at < 1 << 40 && at + want.len() as u64 <= disk.len());
    let part = &mut buf[..want.len()];
    disk.read(at, part)?;
    assert!(rt; *part == *want);
    Ok(())
}

fn take_step<D: Disk>(rt: &impl Abort, disk: &mut D, step: &Step) -> Result<(), DiskFault> {
    match step {
        Step::Read(at, want) => read_back(rt, disk, *at, want),
        Step::Write(at, bytes) => {
            assert!(rt; *at < 1 << 40);
            disk.write_at(*at, bytes)
        }
        Step::Cut(len) => {
            assert!(rt; *len <= disk.len());
            disk.cut(*len)
        }
        Step::Sync => disk.sync(),
    }
}

fn take_steps<D: Disk>(rt: &impl Abort, disk: &mut D, rows: &[Row]) {
    for (number, row) in rows.iter().enumerate() {
        let want = if row.failed {
            Err(DiskFault::Failed)
        } else {
            Ok(())
        };
        assert!(rt; take_step(rt, disk, &row.step) == want, "row {number}");
        assert!(rt; disk.len() == row.len, "row {number}");
    }
}

fn is_recorded(call: &Call, row: &Row) -> bool {
    let same = match (&call.request, &row.step) {
        (Request::Read { at, count }, Step::Read(from, want)) => *at == *from
            && *count == want.len() as u64,
        (Request::Write { at, bytes }, Step::Write(from, want)) => *at == *from
            && bytes.as_slice() == *want,
        (Request::Cut { len }, Step::Cut(to)) => *len == *to,
        (Request::Sync, Step::Sync) => true,
        _ => false,
    };
    same && call.failed == row.failed
}

#[test]
fn fails_where_it_is_told_and_records_all(rt: HostRuntime) -> Result<(), Fail> {
    let rows = [
        done(Step::Write(0, &[1, 2, 3, 4, 5]), 5),
        fails(Step::Write(4, &[6, 7, 8]), 5),
        done(Step::Read(0, &[1, 2, 3, 4, 6]), 5),
        fails(Step::Write(9, &[6]), 5),
        fails(Step::Write(8, &[6, 7]), 9),
        done(Step::Read(4, &[6, 0, 0, 0, 6]), 9),
        fails(Step::Cut(2), 2),
        done(Step::Write(4, &[9]), 5),
        fails(Step::Sync, 5),
        fails(Step::Read(0, &[]), 5),
        done(Step::Read(0, &[1, 2, 0, 0, 9]), 5),
        done(Step::Cut(3), 3),
        done(Step::Sync, 3),
        fails(Step::Write(0, &[7, 7]), 3),
        fails(Step::Read(0, &[]), 3),
    ];
    let mut disk = MemDisk::new(rt.alloc());
    disk.fail_at(vec![in rt.alloc(); 2, 4, 5, 7, 9, 10]?);
    disk.stop_after(13);
    take_steps(&rt, &mut disk, &rows);
    assert!(rt; disk.calls().len() == rows.len());
    for (call, row) in disk.calls().iter().zip(&rows) {
        assert!(rt; is_recorded(call, row));
    }
    disk.stop_after(u64::MAX);
    take_steps(&rt, &mut disk, &[done(Step::Read(0, &[7, 2, 0]), 3)]);
    Ok(())
}

#[test]
fn keeps_no_array_of_its_length(rt: HostRuntime) {
    let rows = [
        done(Step::Write(67108864, &[7, 8, 9]), 67108867),
        done(Step::Read(0, &[0, 0]), 67108867),
        done(Step::Read(67108862, &[0, 0, 7, 8, 9]), 67108867),
        done(Step::Read(67108865, &[8]), 67108867),
        done(Step::Write(67108863, &[4, 5]), 67108867),
        done(Step::Read(67108862, &[0, 4, 5, 8, 9]), 67108867),
        done(Step::Cut(67108865), 67108865),
        done(Step::Write(67108866, &[]), 67108866),
        done(Step::Read(67108862, &[0, 4, 5, 0]), 67108866),
        done(Step::Sync, 67108866),
        done(Step::Cut(0), 0),
        done(Step::Write(1, &[6]), 2),
        done(Step::Read(0, &[0, 6]), 2),
    ];
    let mut sure = SureDisk::new(rt.alloc());
    take_steps(&rt, &mut sure, &rows);
    let mut disk = MemDisk::new(rt.alloc());
    take_steps(&rt, &mut disk, &rows);
}

#[test]
fn a_crash_tears_what_no_sync_made_sure_of(rt: HostRuntime) -> Result<(), Fail> {
    let rows = [
        done(Step::Write(0, &[1, 2, 3, 4]), 4),
        done(Step::Sync, 4),
        done(Step::Write(1, &[8, 9]), 4),
        done(Step::Cut(3), 3),
        fails(Step::Write(0, &[7, 7, 7, 7]), 3),
    ];
    let mut disk = MemDisk::new(rt.alloc());
    disk.stop_after(4);
    take_steps(&rt, &mut disk, &rows);
    let left: [(u64, Tear, &[u8]); 12] = [
        (0, Tear::New, &[]),
        (1, Tear::Old, &[]),
        (1, Tear::Split(2), &[1, 2]),
        (2, Tear::Old, &[1, 2, 3, 4]),
        (3, Tear::Old, &[1, 2, 3, 4]),
        (3, Tear::Split(1), &[1, 8, 3, 4]),
        (3, Tear::New, &[1, 8, 9, 4]),
        (4, Tear::Old, &[1, 2, 3, 4]),
        (4, Tear::Split(1), &[1, 8, 3]),
        (4, Tear::New, &[1, 8, 9]),
        (5, Tear::Split(1), &[7, 8, 3]),
        (u64::MAX, Tear::New, &[7, 7, 9]),
    ];
    for (k, tear, want) in &left {
        let mut crashed = disk.crash(rt.alloc(), *k, *tear)?;
        assert!(rt; crashed.len() == (want.len() as u64));
        read_back(&rt, &mut crashed, 0, want)?;
    }
    Ok(())
}

#[test]
fn a_file_gives_back_what_was_written(rt: HostRuntime) -> Result<(), Fail> {
    let path = "qg_disk_test_file";
    fs::write(&rt, path, b"abcdef".as_slice())?;
    let file = OpenOptions::new().read(true).write(true).open(&rt, path)?;
    let mut disk = FileDisk::new(file, 6);
    take_steps(
        &rt,
        &mut disk,
        &[
            done(Step::Read(1, b"bcd"), 6),
            done(Step::Write(2, b"XY"), 6),
            done(Step::Read(0, b"abXYef"), 6),
            done(Step::Write(9, b"gh"), 11),
            done(Step::Read(4, b"ef\0\0\0gh"), 11),
            done(Step::Cut(10), 10),
            done(Step::Sync, 10),
            done(Step::Write(12, &[]), 12),
            done(Step::Read(9, b"g\0\0"), 12),
            done(Step::Cut(4), 4),
            done(Step::Read(0, b"abXY"), 4),
        ],
    );
    let left = fs::read(&rt, path)?;
    assert!(rt; left.as_slice() == b"abXY".as_slice());
    fs::remove_file(&rt, path)?;
    Ok(())
}

// A file of 8 bytes that are all 7. It moves 2 bytes at a time, takes none past `room`, and can't be cut,
// lengthened or made sure of.
#[derive(Drop)]
struct Stub {
    at: u64,
    room: u64,
}

impl Seek for Stub {
    fn seek(&mut self, to: SeekFrom) -> io::Result<u64> {
        if let SeekFrom::Start(at) = to {
            self.at = at;
        }
        Ok(self.at)
    }
}

impl Stub {
    // How many of so many bytes are moved at once.
    fn step(&mut self, end: u64, count: usize) -> usize
        ensures { result ≤ count }
    {
        let step = end.saturating_sub(self.at).min(2).min(count as u64);
        self.at = self.at.saturating_add(step);
        step as usize
    }
}

impl Read for Stub {
    fn read(&mut self, buf: &mut [u8]) -> io::Result<usize> {
        let count = self.step(8, buf.len());
        buf[..count].fill(7);
        Ok(count)
    }
}

impl Write for Stub {
    fn write(&mut self, buf: &[u8]) -> io::Result<usize> {
        let room = self.room;
        Ok(self.step(room, buf.len()))
    }

    fn flush(&mut self) -> io::Result<()> {
        Ok(())
    }
}

impl OpenFile for Stub {
    fn metadata(&self) -> io::Result<Metadata> {
        Err(io::ErrorKind::Unsupported.into())
    }

    fn set_len(&self, _size: u64) -> io::Result<()> {
        Err(io::ErrorKind::Unsupported.into())
    }

    fn sync_all(&self) -> io::Result<()> {
        Err(io::ErrorKind::Unsupported.into())
    }

    fn sync_data(&self) -> io::Result<()> {
        Err(io::ErrorKind::Unsupported.into())
    }
}

#[test]
fn a_short_read_and_a_write_of_nothing_are_faults(rt: HostRuntime) {
    let rows = [
        done(Step::Read(3, &[7, 7, 7, 7, 7]), 9),
        fails(Step::Read(3, &[7, 7, 7, 7, 7, 7]), 9),
        done(Step::Write(6, &[1, 2, 3, 4, 5]), 11),
        fails(Step::Write(9, &[1, 2, 3, 4, 5]), 13),
        fails(Step::Write(14, &[1]), 13),
        fails(Step::Write(13, &[1]), 13),
        fails(Step::Cut(3), 13),
        fails(Step::Sync, 13),
        done(Step::Read(6, &[7, 7]), 13),
    ];
    let mut disk = FileDisk::new(Stub { at: 0, room: 13 }, 9);
    take_steps(&rt, &mut disk, &rows);
}
