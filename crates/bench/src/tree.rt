// A tree of nodes that is edited and looked up. `bench/tree.rs` does the same with a map.
ghost use Rattle.std.specs.Prelude.{◌≡◌, ◌<◌};

mod reading;
mod work;

use crate::numbers::{ascending, shuffle};
use crate::report::{Report, failed};
use crate::tree::reading::measure_reads;
use crate::tree::work::{Work, measure_works, work_all};
use qg_disk::{Disk, FileDisk, SureDisk};
use std::alloc::Global;
use std::fs::{Files, OpenFile, OpenOptions};
use std::io;
use std::marker::Brand;
use std::rt::Clock;
use std::sync::ledger::{Blank, Ledger};
use tree_setting::Setting;

/// Prints what works give: with times over a file of this path as the disk, and else over a disk in memory.
pub(crate) fn measure<R: Clock + Print + Files>(
    rt: &R,
    alloc: Global,
    report: Report,
    path: Option<String>,
) -> io::Result<()> {
    if !report.is_timed {
        return measure_over::<_, Brand>(rt, alloc, report, SureDisk::new(alloc), Blank::new(1));
    }
    let Some(path) = path else {
        return println!(rt; "the path of a file is missing");
    };
    let file = OpenOptions::new()
        .read(true)
        .write(true)
        .create(true)
        .open(rt, path.as_str())?;
    let len = file.metadata()?.len();
    measure_over::<_, Brand>(rt, alloc, report, FileDisk::new(file, len), Blank::new(1))
}

/// Prints what 1,000 items give, or 20,000 five times and 200,000, and then how long nodes take to be read.
#[tactic(auto, unfolding(qg_super::specs::Places::is_served))]
fn measure_over<D: Disk + Drop, L: Ledger>(
    rt: &(impl Clock + Print),
    alloc: Global,
    report: Report,
    disk: D,
    blank: Blank,
) -> io::Result<()>
    requires name { blank.name ≡ L.name }
    requires parts { blank.parts ≡ L.parts }
    requires full { 0 < blank.parts }
{
    let mut setting = Setting::<D, L>::new(alloc, disk, 16384, 4032, 256, blank).map_err(failed)?;
    if !report.is_timed {
        measure_orders(rt, alloc, report, setting, 1000)?;
        return Ok(());
    }
    for count in [20000, 20000, 20000, 20000, 20000, 200000] {
        setting = measure_orders(rt, alloc, report, setting, count)?;
    }
    let numbers = ascending(alloc, 200000)?;
    work_all(&mut setting, &numbers, Work::Insert).map_err(failed)?;
    let addresses = setting.fresh().map_err(failed)?;
    let setting = setting.commit().map_err(failed)?;
    let (disk, reads) = setting.into_parts();
    let report = report.under("nodes/");
    measure_reads(rt, alloc, report, disk, addresses.as_slice(), reads)
}

/// Measures an empty tree with so many items, which come in ascending order and then in one that is drawn.
fn measure_orders<D: Disk + Drop, L: Ledger>(
    rt: &(impl Clock + Print),
    alloc: Global,
    report: Report,
    setting: Setting<D, L>,
    count: u32,
) -> io::Result<Setting<D, L>> {
    let mut numbers = ascending(alloc, count)?;
    let prefix = format!(in alloc; "ascending/{count}/")?;
    let setting = measure_works(rt, report.under(prefix.as_str()), setting, &numbers)?;
    shuffle(&mut numbers);
    let prefix = format!(in alloc; "drawn/{count}/")?;
    measure_works(rt, report.under(prefix.as_str()), setting, &numbers)
}
