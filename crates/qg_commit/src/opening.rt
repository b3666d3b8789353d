// Opening an image.
ghost use Rattle.std.specs.Prelude.{◌≡◌, ◌∷◌, ◌⊎◌, ◌≤◌, List, Some, IfOk, OnOk, IfErr, IsTrue};
ghost use Rattle.qg_device.specs.Cause.{HasCause};
ghost use Rattle.qg_device.specs.History.{Event, Recorded, Synced, content};
ghost use Rattle.qg_super.specs.Places.{total_bytes};
ghost use Rattle.qg_super.specs.SuperText.{is_super, sizes_of};
ghost use Rattle.qg_image.specs.Verdict.{verdict};
ghost use Rattle.qg_walk.specs.Fault.{TellsFailure};
ghost use Rattle.qg_other_trees.specs.IsImage.{IsEditable, IsImage};
ghost use Rattle.qg_commit.specs.Opened.{IsOpening, OutlivesCrashes};
ghost use Rattle.qg_commit.specs.Opening.{IsUntouched, IsWriting, with_repair};

use qg_disk::{Disk, DiskFault};
use qg_other_trees::check::{Image, read_image};
use qg_super::{FIRST_PLACE, SECOND_PLACE, SUPER_BYTES, Super, write_super};
use qg_walk::OpenFault;
use std::alloc::Global;

/// Opens an image: what it stands for where it is sound, else the first rule that it breaks, or the first stored
/// counter that is not the direct count (this project's own).
///
/// Of a sound image the superblock place that does not hold the superblock that counts is written again; nothing else
/// is written. Whatever a crash leaves since then, the image may be opened again.
pub fn open<D: Disk>(alloc: Global, disk: &mut D) -> Result<Image, OpenFault>
    // Over a disk that tells what it holds.
    ensures image { (events : List Event) → D.history disk.old ≡ Recorded events
        → IfOk result (λ image. IsImage (content events) image) }
    ensures refused { (events : List Event) → D.history disk.old ≡ Recorded events
        → IfErr result (λ fault. TellsFailure fault (verdict (content events))) }
    ensures repaired { (events : List Event) → D.history disk.old ≡ Recorded events
        → IfOk result (λ image. D.history disk.new
        ≡ Recorded (with_repair image.superblock image.stale (Synced ∷ events))) }
    ensures unwritten { (events : List Event) → D.history disk.old ≡ Recorded events
        → IfErr result (λ fault. IsUntouched fault (D.history disk.new) (Synced ∷ events)) }
    ensures touches { (events : List Event) → D.history disk.old ≡ Recorded events
        → IsOpening events (D.history disk.new) }
    ensures crashes { (events : List Event) → D.history disk.old ≡ Recorded events
        → OutlivesCrashes events (D.history disk.new) result }

    // Over any disk.
    ensures fits { IfOk result (λ image. IsTrue (is_super image.superblock)) }
    ensures editable { IfOk result (λ image. IsEditable image) }
    ensures long { IfOk result (λ image. total_bytes (sizes_of image.superblock) ≤ D.size disk.new) }
    ensures cause { HasCause OpenFault.Disk (D.faults disk.old) (D.faults disk.new) result }
{
    disk.sync()?;
    let image = read_image(alloc, disk)?;
    if let Some(place) = image.stale {
        write_place(disk, &image.superblock, place)?;
    }
    Ok(image)
}

// Writes a superblock at one of the two places, and makes sure of it.
fn write_place<D: Disk>(disk: &mut D, superblock: &Super, place: u64) -> Result<(), DiskFault>
    requires fits { IsTrue (is_super superblock.now) }
    requires place { (place ≡ FIRST_PLACE) ⊎ (place ≡ SECOND_PLACE) }
    ensures calls { (events : List Event) → D.history disk.old ≡ Recorded events
        → OnOk result (D.history disk.new ≡ Recorded (with_repair superblock.now (Some place) events)) }
    ensures touches { (events : List Event) → D.history disk.old ≡ Recorded events
        → (D.history disk.new ≡ Recorded events) ⊎ IsWriting superblock.now place events (D.history disk.new) }
    ensures no_less { D.size disk.old ≤ D.size disk.new }
    ensures cause { HasCause DiskFault.Failed (D.faults disk.old) (D.faults disk.new) result }
{
    let mut text = [0; SUPER_BYTES];
    write_super(superblock, place, &mut text);
    disk.write_at(place, &text)?;
    disk.sync()?;
    Ok(())
}
