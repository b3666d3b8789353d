// What no clause says: that calls succeed through the trait.
ghost use Rattle.std.specs.Prelude.{◌≡◌, ◌<◌};
ghost use Rattle.qg_items.specs.declared.extent.Reference.TheVariants.{KeyedData};

use qg_disk::{Disk, MemDisk};
use qg_extents::Extents;
use qg_items::Reference;
use qg_num::{Address, BlockFault, Generation, Ino, RootId, Steps};
use qg_refs::{RefBook, What};
use std::alloc::Global;
use std::marker::Brand;
use std::sync::ledger::{Blank, Ledger};
use std::test::Fail;

// Where the data begins, in an image of 1024 slots of 64 KiB.
const EXTENT: u64 = 67174400;

fn of_file(root: u64, ino: u64, offset: u64) -> Reference
    ensures { result ≡ KeyedData root ino offset }
{
    Reference::KeyedData {
        root: RootId::new(root),
        ino: Ino::new(ino),
        offset,
    }
}

// An extent of 8192 bytes of the second generation.
fn extent() -> What {
    What {
        bytes: 8192,
        level: None,
        generation: Generation::new(2),
    }
}

// What is known of the extent, how often a reference to it is there, whether it is full, and how many references there
// are: once it is added and marked, and once it is dropped.
fn through_the_trait<L: Ledger>(
    alloc: Global,
    blank: Blank,
) -> Result<[(Option<What>, u32, bool, usize); 2], Fail>
    requires name { blank.name ≡ L.name }
    requires parts { blank.parts ≡ L.parts }
    requires some { 0 < blank.parts }
{
    let mut reads = Steps::<L>::new(blank);
    let mut disk = MemDisk::new(alloc);
    let mut extents = Extents::new(alloc);
    let at = Address::new(EXTENT);
    extents.add(
        &mut (),
        &mut disk,
        at,
        extent(),
        of_file(5, 257, 0),
        &mut reads,
    )?;
    extents.set_full(&mut (), &mut disk, at, &mut reads)?;
    let first = answers(alloc, &extents, &mut disk, at, &mut reads)?;
    extents.drop_one(&mut (), &mut disk, at, of_file(5, 257, 0), &mut reads)?;
    let second = answers(alloc, &extents, &mut disk, at, &mut reads)?;
    Ok([first, second])
}

fn answers<D: Disk, L: Ledger>(
    alloc: Global,
    extents: &Extents,
    disk: &mut D,
    at: Address,
    reads: &mut Steps<L>,
) -> Result<(Option<What>, u32, bool, usize), BlockFault> {
    Ok((
        extents.what(&mut (), disk, at, reads)?,
        extents.count(&mut (), disk, at, of_file(5, 257, 0), reads)?,
        extents.is_full(&mut (), disk, at, reads)?,
        extents.refs_of(alloc, &mut (), disk, at, reads)?.len(),
    ))
}

#[test]
fn the_last_reference_takes_the_mark(rt: HostRuntime) -> Result<(), Fail> {
    let [first, second] = through_the_trait::<Brand>(rt.alloc(), Blank::new(1))?;
    assert!(rt; first == (Some(extent()), 1, true, 1));
    assert!(rt; second == (None, 0, false, 0));
    Ok(())
}
