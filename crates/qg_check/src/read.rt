// An image is read from its superblocks down.
ghost use Rattle.std.specs.Prelude.{◌≡◌, ◌⊎◌, ◌≤◌, List, IfOk, IfErr, IfSome, OnOk, IsErrOf, IsTrue};
ghost use Rattle.std.specs.List.{list_all};
ghost use Rattle.qg_device.specs.Cause.{HasCause};
ghost use Rattle.qg_device.specs.History.{Event, Recorded, content};
ghost use Rattle.qg_super.specs.Places.{is_served, is_slot, total_bytes};
ghost use Rattle.qg_super.specs.SuperText.{is_super, sizes_of};
ghost use Rattle.qg_image.specs.Verdict.{verdict, places_failure, together_failure};
ghost use Rattle.qg_walk.specs.Fault.{FailsAs, TellsFailure};
ghost use Rattle.qg_check.specs.Stages.{trees_failure};
ghost use Rattle.qg_check.specs.Editable.{AreSubvolumes};
ghost use Rattle.qg_check.specs.Trees.{AreRead, AreTrees};
ghost use Rattle.qg_check.specs.IsImage.{IsEditable, IsImage};
ghost use Rattle.qg_check.specs.ReadImage.{IsFit, IsWhole};

use crate::Image;
use crate::judge::{Read, judge_trees};
use crate::places::{SuperblockPlaces, read_places};
use crate::trees::{Trees, read_extents, read_quotas, read_roots};
use qg_disk::Disk;
use qg_num::{Address, Rule};
use qg_shared_walk::{NodesRead, read_subvolumes};
use qg_super::{FIRST_PLACE, SECOND_PLACE, Super};
use qg_walk::OpenFault;
use std::alloc::Global;

/// What was read of an image whose superblocks and trees keep their rules, each by itself.
#[derive(Drop)]
pub struct Whole {
    /// The superblock that counts.
    pub superblock: Super,
    /// The superblock place that does not hold it, 65536 or 67108864, if there is one.
    pub stale: Option<u64>,
    /// What the trees say.
    pub read: Read,
}

/// Reads an image: what it stands for where it is sound, else the first rule that it breaks, or the first stored
/// counter that is not the direct count (this project's own). It writes nothing.
pub fn read_image<D: Disk>(alloc: Global, disk: &mut D) -> Result<Image, OpenFault>
    ensures failure { (events : List Event) → D.history disk.old ≡ Recorded events
        → FailsAs result (verdict (content events)) }
    ensures image { (events : List Event) → D.history disk.old ≡ Recorded events
        → IfOk result (λ image. IsImage (content events) image) }
    ensures served { IfOk result (λ image. IsTrue (is_super image.superblock)) }
    ensures editable { IfOk result (λ image. IsEditable image) }
    ensures place { IfOk result
        (λ image. IfSome image.stale (λ place. (place ≡ FIRST_PLACE) ⊎ (place ≡ SECOND_PLACE))) }
    ensures inside { IfOk result (λ image. total_bytes (sizes_of image.superblock) ≤ D.size disk.new) }
    ensures history { D.history disk.new ≡ D.history disk.old }
    ensures size { D.size disk.new ≡ D.size disk.old }
    ensures cause { HasCause OpenFault.Disk (D.faults disk.old) (D.faults disk.new) result }
{
    let whole = read_whole(alloc, disk)?;
    let Whole {
        superblock,
        stale,
        read,
    } = whole;
    let mut image = judge_trees(alloc, superblock, read)?;
    image.stale = stale;
    Ok(image)
}

/// Reads an image whole, and judges its superblocks and its trees, each by itself. It writes nothing.
pub(crate) fn read_whole<D: Disk>(alloc: Global, disk: &mut D) -> Result<Whole, OpenFault>
    ensures failure { (events : List Event) → D.history disk.old ≡ Recorded events
        → IfErr result (λ fault. TellsFailure fault (verdict (content events))) }
    ensures whole { (events : List Event) → D.history disk.old ≡ Recorded events
        → IfOk result (λ whole. IsWhole (content events) whole) }
    ensures fit { IfOk result (λ whole. IsFit whole.superblock whole.read) }
    ensures place { IfOk result
        (λ whole. IfSome whole.stale (λ place. (place ≡ FIRST_PLACE) ⊎ (place ≡ SECOND_PLACE))) }
    ensures inside { IfOk result (λ whole. total_bytes (sizes_of whole.superblock) ≤ D.size disk.new) }
    ensures history { D.history disk.new ≡ D.history disk.old }
    ensures size { D.size disk.new ≡ D.size disk.old }
    ensures cause { HasCause OpenFault.Disk (D.faults disk.old) (D.faults disk.new) result }
{
    let places = read_places(disk)?;
    let Some(superblock) = places.chosen() else {
        return Err(OpenFault::Broken {
            rule: Rule::Super,
            address: Address::new(FIRST_PLACE),
        });
    };
    judge_places(disk.len(), &places, &superblock)?;
    let trees = read_roots(alloc, disk, &superblock)?;
    let read = read_parts(alloc, disk, &superblock, trees)?;
    let other = places.stale();
    Ok(Whole {
        superblock,
        stale: other,
        read,
    })
}

// Judges an image's length and its two superblocks.
fn judge_places(len: u64, places: &SuperblockPlaces, superblock: &Super) -> Result<(), OpenFault>
    requires served { IsTrue (is_served (sizes_of superblock.now)) }
    ensures failure { FailsAs result (places_failure superblock.now places.now.first places.now.second len) }
    ensures inside { OnOk result (total_bytes (sizes_of superblock.now) ≤ len) }
    ensures no_disk { IsErrOf result OpenFault.Disk → ⊥ }
{
    if len < superblock.sizes().total_bytes() {
        return Err(OpenFault::Broken {
            rule: Rule::Length,
            address: Address::new(len),
        });
    }
    if !places.are_mirrored() {
        return Err(OpenFault::Broken {
            rule: Rule::Mirror,
            address: Address::new(SECOND_PLACE),
        });
    }
    Ok(())
}

// Reads the trees that the root tree names, and judges each.
fn read_parts<D: Disk>(
    alloc: Global,
    disk: &mut D,
    superblock: &Super,
    trees: Trees,
) -> Result<Read, OpenFault>
    requires served { IsTrue (is_served (sizes_of superblock.now)) }
    requires inside { total_bytes (sizes_of superblock.now) ≤ D.size disk.old }
    requires subvolumes { AreSubvolumes superblock.now.generation trees.subvolumes }
    ensures failure { (events : List Event) → D.history disk.old ≡ Recorded events
        → AreTrees superblock.now (content events) trees
        → IfErr result (λ fault. TellsFailure fault (trees_failure superblock.now (content events) trees)) }
    ensures read { (events : List Event) → D.history disk.old ≡ Recorded events
        → AreTrees superblock.now (content events) trees
        → IfOk result (λ read. AreRead superblock.now (content events) read
        × (trees_failure superblock.now (content events) trees ≡ together_failure superblock.now (content events))) }
    ensures fit { IsTrue (is_super superblock.now)
        → IsTrue (list_all (is_slot (sizes_of superblock.now)) trees.nodes)
        → IfOk result (λ read. IsFit superblock.now read) }
    ensures history { D.history disk.new ≡ D.history disk.old }
    ensures size { D.size disk.new ≡ D.size disk.old }
    ensures cause { HasCause OpenFault.Disk (D.faults disk.old) (D.faults disk.new) result }
{
    let extents = read_extents(alloc, disk, superblock, &trees.extents)?;
    let subvolumes = trees.subvolumes.as_slice();
    let quotas = read_quotas(alloc, disk, superblock, &trees.quotas, subvolumes)?;
    let nodes = read_subvolumes::<NodesRead, D>(
        alloc,
        disk,
        superblock,
        subvolumes,
        NodesRead::new(alloc),
    )?;
    Ok(Read {
        trees,
        extents,
        quotas,
        nodes,
    })
}
