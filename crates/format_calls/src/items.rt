// Calls on bodies of items, each of a kind.
use crate::bytes::{told_pieces, told_ranges, with_flip};
use call_lines::{Fault, add_word, first_word, numbers_of};
use qg_items::*;
use qg_num::{Address, Generation, Ino, RootId};
use std::alloc::Global;

/// Whether bytes are a body of a kind.
fn is_body(kind: &str, bytes: &[u8]) -> Result<bool, Fault> {
    match kind {
        "inode" => Ok(read_inode(bytes).is_some()),
        "piece" => Ok(read_extent_data(bytes).is_some()),
        "root" => Ok(read_root(bytes).is_some()),
        "extent" => Ok(read_extent(bytes).is_some()),
        "data-ref" => Ok(read_data_ref(bytes).is_some()),
        "shared-data-ref" => Ok(read_shared_data_ref(bytes).is_some()),
        "status" => Ok(read_status(bytes).is_some()),
        "info" => Ok(read_info(bytes).is_some()),
        "limit" => Ok(read_limit(bytes).is_some()),
        _ => Err(Fault::Call),
    }
}

/// The bytes of a body with these numbers, of a file or a piece of one, if they are read as the same.
fn file_bytes(alloc: Global, kind: &str, numbers: &[u64]) -> Result<Vec<u8>, Fault> {
    match (kind, numbers) {
        ("inode", [generation, transid, size, nbytes]) => {
            let inode = InodeItem {
                generation: Generation::new(*generation),
                transid: Generation::new(*transid),
                size: *size,
                nbytes: *nbytes,
            };
            let mut bytes = [0xee; INODE_ITEM_BYTES];
            write_inode(&inode, &mut bytes);
            kept_if(alloc, read_inode(&bytes) == Some(inode), &bytes)
        }
        (
            "piece",
            [
                generation,
                ram_bytes,
                address,
                disk_num_bytes,
                offset,
                num_bytes,
            ],
        ) => {
            let piece = ExtentData {
                generation: Generation::new(*generation),
                ram_bytes: *ram_bytes,
                disk_bytenr: Address::new(*address),
                disk_num_bytes: *disk_num_bytes,
                offset: *offset,
                num_bytes: *num_bytes,
            };
            let mut bytes = [0xee; EXTENT_DATA_BYTES];
            write_extent_data(&piece, &mut bytes);
            kept_if(alloc, read_extent_data(&bytes) == Some(piece), &bytes)
        }
        _ => Err(Fault::Call),
    }
}

/// The same of a tree, or of a node or an extent.
fn tree_bytes(alloc: Global, kind: &str, numbers: &[u64]) -> Result<Vec<u8>, Fault> {
    match (kind, numbers) {
        ("root", [generation, address, last_snapshot, refs, level]) => {
            let root = RootItem {
                generation: Generation::new(*generation),
                bytenr: Address::new(*address),
                last_snapshot: Generation::new(*last_snapshot),
                refs: u32::try_from(*refs).map_err(|_| Fault::Number)?,
                level: u8::try_from(*level).map_err(|_| Fault::Number)?,
            };
            let mut bytes = [0xee; ROOT_ITEM_BYTES];
            write_root(&root, &mut bytes);
            kept_if(alloc, read_root(&bytes) == Some(root), &bytes)
        }
        ("extent", [refs, generation, flags]) => {
            let extent = ExtentItem {
                refs: *refs,
                generation: Generation::new(*generation),
                flags: *flags,
            };
            let mut bytes = [0xee; EXTENT_ITEM_BYTES];
            write_extent(&extent, &mut bytes);
            kept_if(alloc, read_extent(&bytes) == Some(extent), &bytes)
        }
        _ => Err(Fault::Call),
    }
}

/// The same of a reference.
fn reference_bytes(alloc: Global, kind: &str, numbers: &[u64]) -> Result<Vec<u8>, Fault> {
    match (kind, numbers) {
        ("data-ref", [root, ino, offset, count]) => {
            let reference = ExtentDataRef {
                root: RootId::new(*root),
                objectid: Ino::new(*ino),
                offset: *offset,
                count: u32::try_from(*count).map_err(|_| Fault::Number)?,
            };
            let mut bytes = [0xee; EXTENT_DATA_REF_BYTES];
            write_data_ref(&reference, &mut bytes);
            kept_if(alloc, read_data_ref(&bytes) == Some(reference), &bytes)
        }
        ("shared-data-ref", [count]) => {
            let count = u32::try_from(*count).map_err(|_| Fault::Number)?;
            let reference = SharedDataRef { count };
            let mut bytes = [0xee; SHARED_DATA_REF_BYTES];
            write_shared_data_ref(&reference, &mut bytes);
            kept_if(
                alloc,
                read_shared_data_ref(&bytes) == Some(reference),
                &bytes,
            )
        }
        _ => Err(Fault::Call),
    }
}

/// The same of quota.
fn quota_bytes(alloc: Global, kind: &str, numbers: &[u64]) -> Result<Vec<u8>, Fault> {
    match (kind, numbers) {
        ("status", [generation, flags, cursor]) => {
            let status = QgroupStatus {
                generation: Generation::new(*generation),
                flags: *flags,
                cursor: *cursor,
            };
            let mut bytes = [0xee; QGROUP_STATUS_BYTES];
            write_status(&status, &mut bytes);
            kept_if(alloc, read_status(&bytes) == Some(status), &bytes)
        }
        ("info", [generation, rfer, rfer_cmpr, excl, excl_cmpr]) => {
            let info = QgroupInfo {
                generation: Generation::new(*generation),
                rfer: *rfer,
                rfer_cmpr: *rfer_cmpr,
                excl: *excl,
                excl_cmpr: *excl_cmpr,
            };
            let mut bytes = [0xee; QGROUP_INFO_BYTES];
            write_info(&info, &mut bytes);
            kept_if(alloc, read_info(&bytes) == Some(info), &bytes)
        }
        ("limit", [flags, max_rfer, max_excl]) => {
            let limit = QgroupLimit {
                flags: *flags,
                max_rfer: *max_rfer,
                max_excl: *max_excl,
            };
            let mut bytes = [0xee; QGROUP_LIMIT_BYTES];
            write_limit(&limit, &mut bytes);
            kept_if(alloc, read_limit(&bytes) == Some(limit), &bytes)
        }
        _ => Err(Fault::Call),
    }
}

/// Bytes, if they are read as what was written.
fn kept_if(alloc: Global, is_read: bool, bytes: &[u8]) -> Result<Vec<u8>, Fault> {
    if !is_read {
        return Err(Fault::Failed);
    }
    Ok(Vec::from_slice(alloc, bytes)?)
}

/// The places where a changed bit makes bytes no body of a kind.
fn told_constants(alloc: Global, kind: &str, bytes: &[u8]) -> Result<String, Fault> {
    let mut flags = Vec::new(alloc);
    for place in 0..bytes.len() {
        flags.push(!is_body(kind, &with_flip(alloc, bytes, place)?)?)?;
    }
    told_ranges(alloc, &flags)
}

/// How many of the first bytes are a body of a kind.
fn told_lengths(alloc: Global, kind: &str, bytes: &[u8]) -> Result<String, Fault> {
    let mut answer = String::new(alloc);
    for length in 0..=bytes.len() {
        if is_body(kind, &bytes[..length])? {
            add_word(&mut answer, format!(in alloc; "{length}")?.as_str())?;
        }
    }
    Ok(answer)
}

/// Makes a call.
pub(crate) fn answer(alloc: Global, bytes: &[u8], verb: &str, text: &str) -> Result<String, Fault> {
    let (kind, text) = first_word(text);
    match verb {
        "constants" => return told_constants(alloc, kind, bytes),
        "lengths" => return told_lengths(alloc, kind, bytes),
        "body" => {}
        _ => return Err(Fault::Call),
    }
    let numbers = numbers_of(alloc, text)?;
    let body = match kind {
        "inode" | "piece" => file_bytes(alloc, kind, &numbers)?,
        "root" | "extent" => tree_bytes(alloc, kind, &numbers)?,
        "data-ref" | "shared-data-ref" => reference_bytes(alloc, kind, &numbers)?,
        _ => quota_bytes(alloc, kind, &numbers)?,
    };
    told_pieces(alloc, &body, 0, body.len() as u64)
}
