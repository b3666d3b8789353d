// What is done with a tree and timed.
use super::Setting;
use crate::numbers::mix;
use crate::report::{Report, failed, timed};
use qg_disk::Disk;
use qg_num::{BlockFault, Key};
use std::io;
use std::rt::Clock;
use std::sync::ledger::Ledger;

/// What is done with the item of each number.
#[derive(Clone, Copy)]
pub(crate) enum Work {
    Insert,
    Find,
    Replace(u64),
    Remove,
}

const FRESH: [(&str, Work); 4] = [
    ("inserted", Work::Insert),
    ("found", Work::Find),
    ("replaced", Work::Replace(5)),
    ("removed", Work::Remove),
];

const WRITTEN: [(&str, Work); 3] = [
    ("found-written", Work::Find),
    ("found-again", Work::Find),
    ("replaced-written", Work::Replace(7)),
];

const LAST: [(&str, Work); 1] = [("removed-written", Work::Remove)];

/// Does each work with an empty tree, all fresh, and again after a commit. The tree is empty then, and committed.
pub(crate) fn measure_works<D: Disk + Drop, L: Ledger>(
    rt: &(impl Clock + Print),
    report: Report,
    setting: Setting<D, L>,
    numbers: &[u32],
) -> io::Result<Setting<D, L>> {
    let mut setting = setting;
    measure_each(rt, report, &mut setting, numbers, &FRESH)?;
    work_all(&mut setting, numbers, Work::Insert).map_err(failed)?;
    let mut setting = setting.commit().map_err(failed)?;
    measure_each(rt, report, &mut setting, numbers, &WRITTEN)?;
    let mut setting = setting.commit().map_err(failed)?;
    measure_each(rt, report, &mut setting, numbers, &LAST)?;
    setting.commit().map_err(failed)
}

/// Does one work after the other. Of each it prints a digest of what was found and of what the tree has then.
fn measure_each<D: Disk + Drop, L: Ledger>(
    rt: &(impl Clock + Print),
    report: Report,
    setting: &mut Setting<D, L>,
    numbers: &[u32],
    works: &[(&'static str, Work)],
) -> io::Result<()> {
    for (what, work) in works {
        let (found, took) = timed(rt, || work_all(setting, numbers, *work))?;
        let sum = mix(found, digest(setting).map_err(failed)?);
        report.print(rt, &[(*what, sum, took)])?;
    }
    Ok(())
}

/// Does a work with each of the numbers. What is found is summed.
pub(crate) fn work_all<D: Disk + Drop, L: Ledger>(
    setting: &mut Setting<D, L>,
    numbers: &[u32],
    work: Work,
) -> Result<u64, BlockFault> {
    let mut sum = 0;
    for number in numbers {
        let number = *number as u64;
        let key = key_of(number);
        match work {
            Work::Insert => setting.insert(key, &body_of(number, 3))?,
            Work::Find => {
                let found = setting.get(key)?;
                sum = mix(sum, found.map_or(0, |body| first_of(body.as_slice())));
            }
            Work::Replace(version) => setting.replace(key, &body_of(number, version))?,
            Work::Remove => setting.remove(key)?,
        }
    }
    Ok(sum)
}

/// The key of a piece of a file.
fn key_of(number: u64) -> Key {
    Key {
        objectid: 257,
        kind: 108,
        offset: number.wrapping_mul(4096),
    }
}

fn body_of(number: u64, version: u64) -> [u8; 53] {
    let mut body = [7; 53];
    body[..8].copy_from_slice(&number.wrapping_mul(version).to_le_bytes());
    body
}

fn first_of(body: &[u8]) -> u64 {
    match body.first_chunk::<8>() {
        Some(bytes) => u64::from_le_bytes(*bytes),
        None => 0,
    }
}

/// One number of all keys and bodies.
fn digest<D: Disk + Drop, L: Ledger>(setting: &mut Setting<D, L>) -> Result<u64, BlockFault> {
    let last = Key {
        offset: u64::MAX,
        ..key_of(0)
    };
    let items = setting.range(key_of(0), last)?;
    let mut sum = 0;
    for item in items.as_slice() {
        sum = mix(mix(sum, item.key.offset), first_of(item.body.as_slice()));
    }
    Ok(sum)
}
