// Calls on fields of bytes, on keys and on the numbers of groups.
ghost use Rattle.std.specs.Prelude.{◌≤◌, length};

use crate::bytes::told_pieces;
use call_lines::{Fault, bytes_of, numbers_of, told_if, told_number};
use qg_num::{GroupId, Key, is_zero, put_u32, put_u64, put_zeros, u32_at, u64_at};
use std::alloc::Global;
use std::cmp::Ordering;

/// Writes a number, or zeros, from a place on.
fn put_field(bytes: &mut [u8], verb: &str, place: usize, number: u64) -> Result<(), Fault>
    requires { place ≤ length bytes.old }
{
    let room = bytes.len() - place;
    match verb {
        "put-u64" if room >= 8 => put_u64(bytes, place, number),
        "put-u32" if room >= 4 => {
            let number = u32::try_from(number).map_err(|_| Fault::Number)?;
            put_u32(bytes, place, number);
        }
        "put-zeros" if number <= room as u64 => put_zeros(bytes, place, number as usize),
        _ => return Err(Fault::Unmet),
    }
    Ok(())
}

/// The number of some bytes from a place on.
fn field(bytes: &[u8], verb: &str, place: usize) -> Result<u64, Fault>
    requires { place ≤ length bytes.now }
{
    let room = bytes.len() - place;
    match verb {
        "u64" if room >= 8 => Ok(u64_at(bytes, place)),
        "u32" if room >= 4 => Ok(u64::from(u32_at(bytes, place))),
        _ => Err(Fault::Unmet),
    }
}

/// The key that these numbers are of: of an object, of a type, and an offset.
pub(crate) fn key_of(objectid: u64, kind: u64, offset: u64) -> Result<Key, Fault> {
    let kind = u8::try_from(kind).map_err(|_| Fault::Number)?;
    Ok(Key {
        objectid,
        kind,
        offset,
    })
}

/// The numbers of the key that has these bytes.
fn read_key(alloc: Global, text: &str) -> Result<String, Fault> {
    let text = bytes_of(alloc, text)?;
    if text.len() != 17 {
        return Err(Fault::Unmet);
    }
    let mut bytes = [0; 17];
    bytes.copy_from_slice(&text);
    let key = Key::read(&bytes);
    let (objectid, kind, offset) = (key.objectid, key.kind, key.offset);
    Ok(format!(in alloc; "{objectid} {kind} {offset}")?)
}

/// Makes a call on keys or groups alone.
fn answer_name(alloc: Global, verb: &str, numbers: &[u64]) -> Result<String, Fault> {
    match (verb, numbers) {
        ("key", [objectid, kind, offset]) => {
            let mut bytes = [0xee; 17];
            key_of(*objectid, *kind, *offset)?.write(&mut bytes);
            Ok(hex::encode(alloc, &bytes)?)
        }
        ("before", [objectid, kind, offset, other, its_kind, its_offset]) => {
            let key = key_of(*objectid, *kind, *offset)?;
            let other = key_of(*other, *its_kind, *its_offset)?;
            if key.is_before(other) != (key.cmp(&other) == Ordering::Less) {
                return Err(Fault::Failed);
            }
            told_if(alloc, key.is_before(other))
        }
        ("group", [level, id]) => {
            let group = GroupId::new(*level, *id);
            told_number(alloc, group.map(|group| group.number()))
        }
        ("level", [number]) => told_number(alloc, Some(GroupId::from_number(*number).level())),
        ("id", [number]) => told_number(alloc, Some(GroupId::from_number(*number).id())),
        _ => Err(Fault::Call),
    }
}

/// Makes a call.
pub(crate) fn answer(
    alloc: Global,
    bytes: &mut Vec<u8>,
    verb: &str,
    text: &str,
) -> Result<String, Fault> {
    if verb == "read-key" {
        return read_key(alloc, text);
    }
    let numbers = numbers_of(alloc, text)?;
    let length = bytes.len() as u64;
    match (verb, numbers.as_slice()) {
        ("put-u64" | "put-u32" | "put-zeros", [place, number]) if *place <= length => {
            put_field(bytes, verb, *place as usize, *number)?;
            told_pieces(alloc, bytes, 0, length)
        }
        ("u64" | "u32", [place]) if *place <= length => {
            told_number(alloc, Some(field(bytes, verb, *place as usize)?))
        }
        ("is-zero", [from, to]) if from <= to && *to <= length => {
            told_if(alloc, is_zero(bytes, *from as usize, *to as usize))
        }
        (verb, numbers) => answer_name(alloc, verb, numbers),
    }
}
