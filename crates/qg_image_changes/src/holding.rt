// What an image that was just opened holds. Addresses and lengths are in bytes.
ghost use Rattle.std.specs.Prelude.{◌≡◌, ◌++◌, ◌↔◌, ℕ, None, not, IfOk, IsTrue};
ghost use Rattle.std.specs.List.{Contains, filter, list_all};
ghost use Rattle.qg_super.specs.Places.{is_served, is_slot};
ghost use Rattle.qg_super.specs.SuperText.{sizes_of};
ghost use Rattle.qg_image.specs.Verdict.{space_failure};
ghost use Rattle.qg_space.specs.Holding.{has_slot};

use qg_image::Element;
use qg_num::{Address, NoMemory, Sequence};
use qg_space::{Space, give_slots, take_slots};
use qg_super::Super;
use std::alloc::Global;

/// What an image with this superblock holds: the present state the subvolume's nodes and extents, the last commit the
/// other trees' nodes too.
pub(crate) fn space_of(
    alloc: Global,
    superblock: &Super,
    others: &[Address],
    nodes: &[Address],
    extents: &[Element],
) -> Result<Space, NoMemory>
    requires served { IsTrue (is_served (sizes_of superblock.now)) }
    requires others { IsTrue (list_all (is_slot (sizes_of superblock.now)) others.now) }
    requires nodes { IsTrue (list_all (is_slot (sizes_of superblock.now)) nodes.now) }
    requires extents { space_failure (sizes_of superblock.now) extents.now ≡ None }
    ensures sizes { IfOk result (λ space. space.sizes ≡ sizes_of superblock.now) }
    ensures runs { IfOk result (λ space. space.runs ≡ extents.now) }
    ensures held_runs { IfOk result (λ space. space.held_runs ≡ extents.now) }
    ensures slots { IfOk result (λ space. (slot : ℕ) → Contains space.slots slot ↔ Contains nodes.now slot) }
    ensures held_slots { IfOk result (λ space. (slot : ℕ)
        → Contains space.held_slots slot ↔ Contains (others.now ++ nodes.now) slot) }
{
    let mut space = Space::new(
        alloc,
        superblock.slots,
        superblock.nodesize,
        superblock.sectors,
    )?;
    take_slots(&mut space, nodes)?;
    let elsewhere = slots_not_in(alloc, &space, others)?;
    take_slots(&mut space, elsewhere.as_slice())?;
    space.committed();
    give_slots(&mut space, elsewhere.as_slice());
    space.hold_runs(extents)?;
    Ok(space)
}

/// Those of some slots that the present state doesn't have.
fn slots_not_in(
    alloc: Global,
    space: &Space,
    slots: &[Address],
) -> Result<Sequence<Address>, NoMemory>
    ensures { IfOk result (λ others. others ≡ filter (λ slot. not (has_slot space.now slot)) slots.now) }
{
    let mut others = Sequence::new(alloc);
    for slot in slots {
        if !space.has_slot(*slot) {
            others.push(*slot)?;
        }
    }
    Ok(others)
}
