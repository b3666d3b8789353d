// Calls on superblocks.
ghost use Rattle.std.specs.Prelude.{◌≡◌, ◌⊎◌, IfOk};
ghost use Rattle.qg_super.specs.Places.{first_place, second_place};

use crate::bytes::{changed, told_ranges, with_flip};
use call_lines::{Fault, first_word, numbers_of, told, told_if, told_number};
use qg_num::{Address, Generation};
use qg_super::{FIRST_PLACE, SECOND_PLACE, SUPER_BYTES, Super, choose, read_super, write_super};
use std::alloc::Global;

/// Where the first or the second superblock lies.
fn place_of(word: &str) -> Result<u64, Fault>
    ensures { IfOk result (λ place. (place ≡ first_place) ⊎ (place ≡ second_place)) }
{
    match word {
        "first" => Ok(FIRST_PLACE),
        "second" => Ok(SECOND_PLACE),
        _ => Err(Fault::Call),
    }
}

/// The superblock `GENERATION ROOT NODESIZE SLOTS SECTORS`, or none.
fn super_of(alloc: Global, text: &str) -> Result<Option<Super>, Fault> {
    if text == "none" {
        return Ok(None);
    }
    match numbers_of(alloc, text)?.as_slice() {
        [generation, root, nodesize, slots, sectors] => Ok(Some(Super {
            generation: Generation::new(*generation),
            root: Address::new(*root),
            nodesize: u32::try_from(*nodesize).map_err(|_| Fault::Number)?,
            slots: *slots,
            sectors: *sectors,
            format: 1,
        })),
        _ => Err(Fault::Call),
    }
}

/// The numbers of a superblock, or `none`.
fn told_super(alloc: Global, superblock: Option<Super>) -> Result<String, Fault> {
    let Some(superblock) = superblock else {
        return told(alloc, "none");
    };
    let (generation, root) = (superblock.generation.value(), superblock.root.value());
    let (slots, sectors) = (superblock.slots, superblock.sectors);
    let nodesize = superblock.nodesize;
    Ok(format!(in alloc; "{generation} {root} {nodesize} {slots} {sectors}")?)
}

/// The text of a superblock for a place.
fn write(alloc: Global, place: &str, text: &str) -> Result<Vec<u8>, Fault> {
    let place = place_of(place)?;
    let Some(superblock) = super_of(alloc, text)? else {
        return Err(Fault::Call);
    };
    if !superblock.is_super() {
        return Err(Fault::Unmet);
    }
    let mut bytes = [0xee; SUPER_BYTES];
    write_super(&superblock, place, &mut bytes);
    Ok(Vec::from_slice(alloc, &bytes)?)
}

/// The places where a changed bit makes bytes no text of a superblock for a place. Changes are made behind it.
fn constants(alloc: Global, bytes: &[u8], place: u64, changes: &str) -> Result<String, Fault> {
    let mut flags = Vec::new(alloc);
    for i in 0..bytes.len() {
        let text = changed(alloc, &with_flip(alloc, bytes, i)?, changes)?;
        flags.push(read_super(&text, place).is_none())?;
    }
    told_ranges(alloc, &flags)
}

/// The length of an image, where its sizes are served.
fn total(superblock: &Super) -> Option<u64> {
    let sizes = superblock.sizes();
    if !sizes.is_served() {
        return None;
    }
    Some(sizes.total_bytes())
}

/// Makes a call on two superblocks.
fn answer_two(alloc: Global, verb: &str, text: &str) -> Result<String, Fault> {
    let Some((first, second)) = text.split_once(" / ") else {
        return Err(Fault::Call);
    };
    let (first, second) = (super_of(alloc, first)?, super_of(alloc, second)?);
    match (verb, first, second) {
        ("choose", first, second) => told_super(alloc, choose(first, second)),
        ("same", Some(first), Some(second)) => told_if(alloc, first.is_same(&second)),
        _ => Err(Fault::Call),
    }
}

/// Makes a call.
pub(crate) fn answer(
    alloc: Global,
    bytes: &mut Vec<u8>,
    verb: &str,
    text: &str,
) -> Result<String, Fault> {
    let (place, rest) = first_word(text);
    match verb {
        "write" => {
            *bytes = write(alloc, place, rest)?;
            told(alloc, "done")
        }
        "read" => {
            let place = place_of(place)?;
            told_super(alloc, read_super(&changed(alloc, bytes, rest)?, place))
        }
        "constants" => constants(alloc, bytes, place_of(place)?, rest),
        "total" => match super_of(alloc, text)? {
            Some(superblock) => told_number(alloc, total(&superblock)),
            None => Err(Fault::Call),
        },
        verb => answer_two(alloc, verb, text),
    }
}
