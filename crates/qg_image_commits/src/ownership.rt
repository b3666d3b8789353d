// The subvolumes that reach what begins at an address.
ghost use Rattle.std.specs.Prelude.{◌≡◌, ◌<◌, ◌==◌, [], All, List, IfOk, length, map};
ghost use Rattle.std.specs.List.{list_any};
ghost use Rattle.std.specs.List.Sorted.{IsStrictlyIncreasing};
ghost use Rattle.qg_device.specs.Cause.{HasCause};
ghost use Rattle.qg_device.specs.History.{Event, Recorded};
ghost use Rattle.qg_num.specs.declared.command.Command.TheVariants.{Owners};
ghost use Rattle.qg_image.specs.State.{State};
ghost use Rattle.qg_blocks.specs.Stopping.{StopsForCause};
ghost use Rattle.qg_blocks.specs.NodesFound.{BreaksNone};
ghost use Rattle.qg_open_image.specs.Answering.{Answered};
ghost use Rattle.qg_open_image.specs.Editing.{HasLooked};
ghost use Rattle.qg_open_image.specs.Keeping.{IsKept, IsKeptOf};
ghost use Rattle.qg_image_commits.specs.Owning.{AreOwners, AreSetsAt, has_at, number_at};

use crate::counting::roots_of;
use crate::surveying::{survey_all, trees_by_number};
use qg_disk::Disk;
use qg_num::{Address, Answer, BlockFault, NoMemory, OwnerList, RootId, Sequence, Steps};
use qg_open_image::OpenImage;
use qg_qgroup_counts::{Reached, SetId, Surveyed, reached_of};
use std::alloc::{AllocError, Global};
use std::sync::ledger::Ledger;

/// The subvolumes that reach a node at an address, or an extent that begins there, ascending by number. All nodes that
/// subvolumes reach are read once each.
pub fn owners<D: Disk, L: Ledger>(
    kept: &mut OpenImage,
    disk: &mut D,
    address: Address,
    reads: &mut Steps<L>,
) -> Result<Answer, BlockFault>
    requires kept { IsKept kept.old (D.history disk.old) (D.size disk.old) }
    ensures kept { IsKept kept.new (D.history disk.new) (D.size disk.new) }
    ensures step { (state : State) → IsKeptOf kept.old state (D.history disk.old)
        → IfOk result (λ answer. Answered state (Owners address) answer [] kept.new (D.history disk.new)) }
    ensures sound { (state : State) (events : List Event) → D.history disk.old ≡ Recorded events
        → IsKeptOf kept.old state (D.history disk.old) → BreaksNone result }
    ensures looked { HasLooked kept.old kept.new (D.history disk.old) (D.history disk.new) (D.size disk.old)
        (D.size disk.new) }
    ensures stops { StopsForCause result kept.old.fs.land.blocks.draft.sizes (D.size disk.old) }
    ensures cause { HasCause BlockFault.Disk (D.faults disk.old) (D.faults disk.new) result }
{
    let _ascending = kept.fs.refs.refs().len();
    let trees = trees_by_number(kept.alloc, &kept.fs)?;
    let nodes = survey_all(kept, disk, trees.as_slice(), reads)?;
    let roots = roots_of(kept.alloc, trees.as_slice())?;
    let owners = owners_of(kept.alloc, roots.as_slice(), nodes.as_slice(), address)?;
    Ok(Answer::Owners(owners))
}

// The numbers of the roots that lead to what begins at an address.
fn owners_of(
    alloc: Global,
    roots: &[(RootId, Address)],
    nodes: &[Surveyed],
    address: Address,
) -> Result<OwnerList, NoMemory>
    requires { IsStrictlyIncreasing (map (λ node. node.linked.address) nodes.now) }
    ensures { IfOk result (λ owners. AreOwners roots.now nodes.now address owners) }
{
    let mut reached = reached_of(alloc, roots, nodes)?;
    let sets = sets_at(alloc, &reached, nodes, address)?;
    let all = reached.union(alloc, sets.as_slice())?;
    let members = reached.members(alloc, all, roots.len())?;
    Ok(numbers_at(alloc, roots, members.as_slice())?)
}

// The sets of the nodes that lie at an address, or name an extent that begins there.
fn sets_at(
    alloc: Global,
    reached: &Reached,
    nodes: &[Surveyed],
    address: Address,
) -> Result<Sequence<SetId>, AllocError>
    ensures { IfOk result (λ sets. AreSetsAt reached.now nodes.now address sets) }
{
    let mut sets = Sequence::new(alloc);
    for (i, node) in nodes.iter().enumerate() {
        if has_at(node, address) {
            sets.push(reached.set_of(i))?;
        }
    }
    Ok(sets)
}

// Whether a node lies at an address, or names an extent that begins there.
fn has_at(node: &Surveyed, address: Address) -> bool
    ensures { result ≡ has_at address node.now }
{
    node.linked.address == address || is_among(node.extents.as_slice(), address)
}

// Whether one of some extents begins at an address.
fn is_among(extents: &[Address], address: Address) -> bool
    ensures { result ≡ list_any (λ extent. extent == address) extents.now }
{
    for extent in extents {
        if *extent == address {
            return true;
        }
    }
    false
}

// The numbers of the roots at some indices.
fn numbers_at(
    alloc: Global,
    roots: &[(RootId, Address)],
    places: &[usize],
) -> Result<OwnerList, AllocError>
    requires { All (λ place. place < length roots.now) places.now }
    ensures { IfOk result (λ numbers. numbers ≡ map (number_at roots.now) places.now) }
{
    let mut numbers = OwnerList::new(alloc);
    for place in places {
        numbers.push(roots[*place].0)?;
    }
    Ok(numbers)
}
