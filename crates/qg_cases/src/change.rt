// Changes of a disk in memory between runs. Each says why it could not be made.
use qg_case_file::NoMemory;
use qg_crc32c::crc32c;
use qg_disk::{Disk, MemDisk};
use std::alloc::Global;

/// Where the bytes begin that a checksum covers.
const COVERED: usize = 32;

/// The bytes at a place, where they lie on the disk.
pub(crate) fn bytes_at(
    alloc: Global,
    disk: &mut MemDisk,
    at: u64,
    len: u64,
) -> Result<Option<Vec<u8>>, NoMemory> {
    let Some(end) = at.checked_add(len) else {
        return Ok(None);
    };
    if end > disk.len() {
        return Ok(None);
    }
    let mut bytes = vec![in alloc; 0u8; len as usize]?;
    match disk.read(at, &mut bytes) {
        Ok(()) => Ok(Some(bytes)),
        Err(_) => Ok(None),
    }
}

/// Sets bytes; whether that could be done.
pub(crate) fn set(disk: &mut MemDisk, at: u64, bytes: &[u8]) -> bool {
    match at.checked_add(bytes.len() as u64) {
        Some(_) => disk.write_at(at, bytes).is_ok(),
        None => false,
    }
}

/// Makes the checksum of a node or a superblock right; whether that could be done.
pub(crate) fn make_checksum(
    alloc: Global,
    disk: &mut MemDisk,
    at: u64,
    len: u64,
) -> Result<bool, NoMemory> {
    let Some(bytes) = bytes_at(alloc, disk, at, len)? else {
        return Ok(false);
    };
    match bytes.get(COVERED..) {
        Some(covered) => Ok(set(disk, at, &crc32c(covered).to_le_bytes())),
        None => Ok(false),
    }
}

/// Cuts the disk; whether that could be done.
pub(crate) fn cut(disk: &mut MemDisk, len: u64) -> bool {
    len <= disk.len() && disk.cut(len).is_ok()
}

/// Makes the disk so long; whether that could be done.
pub(crate) fn extend(disk: &mut MemDisk, len: u64) -> bool {
    len > disk.len() && set(disk, len - 1, &[0])
}
