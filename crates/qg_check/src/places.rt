// The two superblocks of a disk, and the first rules of an image.
ghost use Rattle.std.specs.Prelude.{◌≡◌, ◌+◌, ◌<◌, ◌^◌, ◌⊎◌, List, length, IfOk, IfSome, IsTrue};
ghost use Rattle.qg_device.specs.Cause.{HasCause};
ghost use Rattle.qg_device.specs.History.{Event, Recorded, content};
ghost use Rattle.qg_super.specs.Places.{first_place, is_served, second_place};
ghost use Rattle.qg_super.specs.SuperText.{choose, sizes_of};
ghost use Rattle.qg_image.specs.ImageState.{super_in};
ghost use Rattle.qg_image.specs.Verdict.{are_mirrored};
ghost use Rattle.qg_check.specs.Stages.{FieldsFit};
ghost use Rattle.qg_check.specs.Stale.{stale_place};

use qg_disk::{Disk, DiskFault};
use qg_super::{FIRST_PLACE, SECOND_PLACE, SUPER_BYTES, Super, choose, read_super};

/// The superblocks that stand at the two places of an image.
#[derive(Clone, Copy)]
pub(crate) struct SuperblockPlaces {
    pub first: Option<Super>,
    pub second: Option<Super>,
}

impl SuperblockPlaces {
    /// The one that counts.
    pub(crate) fn chosen(&self) -> Option<Super>
        requires first { IfSome self.now.first FieldsFit }
        requires second { IfSome self.now.second FieldsFit }
        ensures value { result ≡ choose self.now.first self.now.second }
        ensures fits { IfSome result FieldsFit }
        ensures served { IfSome result (λ superblock. IsTrue (is_served (sizes_of superblock))) }
    {
        choose(self.first, self.second)
    }

    /// The place that does not hold the superblock that counts, in bytes, if there is one.
    pub(crate) fn stale(&self) -> Option<u64>
        ensures value { result ≡ stale_place self.now.first self.now.second }
        ensures place { IfSome result (λ place. (place ≡ FIRST_PLACE) ⊎ (place ≡ SECOND_PLACE)) }
    {
        match (&self.first, &self.second) {
            (Some(first), Some(second)) if first.is_same(second) => None,
            (Some(first), Some(second)) if first.generation < second.generation => {
                Some(FIRST_PLACE)
            }
            (Some(_), _) => Some(SECOND_PLACE),
            (None, Some(_)) => Some(FIRST_PLACE),
            (None, None) => None,
        }
    }

    /// Whether they say the same, if they are of one generation.
    pub(crate) fn are_mirrored(&self) -> bool
        ensures { result ≡ are_mirrored self.now.first self.now.second }
    {
        match (&self.first, &self.second) {
            (Some(first), Some(second)) => {
                first.generation != second.generation || first.is_same(second)
            }
            _ => true,
        }
    }
}

/// Reads both places.
pub(crate) fn read_places<D: Disk>(disk: &mut D) -> Result<SuperblockPlaces, DiskFault>
    ensures first { (events : List Event) → D.history disk.old ≡ Recorded events
        → IfOk result (λ places. places.first ≡ super_in (content events) first_place) }
    ensures second { (events : List Event) → D.history disk.old ≡ Recorded events
        → IfOk result (λ places. places.second ≡ super_in (content events) second_place) }
    ensures first_fits { IfOk result (λ places. IfSome places.first FieldsFit) }
    ensures second_fits { IfOk result (λ places. IfSome places.second FieldsFit) }
    ensures history { D.history disk.new ≡ D.history disk.old }
    ensures size { D.size disk.new ≡ D.size disk.old }
    ensures cause { HasCause DiskFault.Failed (D.faults disk.old) (D.faults disk.new) result }
{
    let first = read_place(disk, FIRST_PLACE)?;
    let second = read_place(disk, SECOND_PLACE)?;
    Ok(SuperblockPlaces { first, second })
}

// Reads one place, if the disk is so long.
fn read_place<D: Disk>(disk: &mut D, place: u64) -> Result<Option<Super>, DiskFault>
    requires { (place ≡ FIRST_PLACE) ⊎ (place ≡ SECOND_PLACE) }
    ensures found { (events : List Event) → D.history disk.old ≡ Recorded events
        → IfOk result (λ found. found ≡ super_in (content events) place) }
    ensures fit { IfOk result (λ found. IfSome found FieldsFit) }
    ensures history { D.history disk.new ≡ D.history disk.old }
    ensures size { D.size disk.new ≡ D.size disk.old }
    ensures cause { HasCause DiskFault.Failed (D.faults disk.old) (D.faults disk.new) result }
{
    if disk.len() < place + SUPER_BYTES as u64 {
        return Ok(None);
    }
    let mut bytes = [0; SUPER_BYTES];
    disk.read(place, &mut bytes)?;
    Ok(read_super(&bytes, place))
}
