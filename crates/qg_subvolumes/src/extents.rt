// Data extents that a node that goes refers to.
ghost use Rattle.std.specs.Prelude.{◌≡◌, ◌*◌, ◌/◌, false, IfErr, IfOk, IsTrue, All};
ghost use Rattle.std.specs.List.{Contains};
ghost use Rattle.std.specs.Option.{option_and_then};
ghost use Rattle.qg_num.specs.declared.fault.BlockFault.TheVariants.{Image};
ghost use Rattle.qg_num.specs.declared.rule.Rule.TheVariants.{Refs};
ghost use Rattle.qg_super.specs.Places.{is_run};
ghost use Rattle.qg_image.specs.Owed.{owed_by_node};
ghost use Rattle.qg_refs.specs.Book.{what_in};
ghost use Rattle.qg_blocks.specs.Stopping.{NamesRule};
ghost use Rattle.qg_blocks.specs.NodesFound.{BreaksNone};
ghost use Rattle.qg_extents.specs.Table.{book_of};
ghost use Rattle.qg_subvolumes.specs.Dropping.{extent_of_what, extents_known, without_references};

use qg_backref_rule::owings_of_node;
use qg_extents::Extents;
use qg_image::Element;
use qg_node::Node;
use qg_num::{Address, BlockFault, NoMemory, Rule};
use qg_space::Space;
use qg_super::SECTOR;
use std::alloc::Global;

/// The data extents that a node refers to, as often as it does. Their lengths are known as long as they have a
/// reference.
pub(crate) fn extents_known(
    alloc: Global,
    refs: &Extents,
    node: &Node,
) -> Result<Vec<Element>, NoMemory>
    ensures { IfOk result (λ extents. extents.items
        ≡ extents_known (book_of refs.now) (owed_by_node (record { node = node.now; full = false }))) }
{
    let mut owings = Vec::new(alloc);
    owings_of_node(node, false, &mut owings)?;
    let mut extents = Vec::new(alloc);
    for owing in owings.as_slice() {
        if let Some(extent) = extent_at(refs, owing.address) {
            extents.push(extent)?;
        }
    }
    Ok(extents)
}

// The data extent that is known at an address.
fn extent_at(refs: &Extents, address: Address) -> Option<Element>
    ensures { result ≡ option_and_then (extent_of_what address) (what_in (book_of refs.now address)) }
{
    let what = refs.known(address)?;
    match what.level {
        Some(_level) => None,
        None => Some(Element {
            address,
            bytes: what.bytes,
        }),
    }
}

/// Those of some extents that have no reference. Each is a run that is taken, whole.
///
/// `Image` comes with `refs` and an extent's address where it is not.
pub(crate) fn without_references(
    alloc: Global,
    refs: &Extents,
    space: &Space,
    extents: &[Element],
) -> Result<Vec<Element>, BlockFault>
    ensures value { IfOk result (λ gone. gone.items ≡ without_references (book_of refs.now) extents.now) }
    ensures taken { IfOk result (λ gone. All (Contains space.now.runs) gone.items) }
    ensures sound { All (λ run. Contains space.now.runs run × IsTrue (is_run space.now.sizes run.address run.bytes))
        (without_references (book_of refs.now) extents.now) → BreaksNone result }
    ensures no_disk { IfErr result (λ fault. fault ≡ BlockFault.Disk → ⊥) }
    ensures refs { NamesRule result Refs }
{
    let mut gone = Vec::new(alloc);
    for extent in extents {
        if refs.how_many(extent.address) == 0 {
            let sectors = extent.bytes / SECTOR;
            if sectors * SECTOR != extent.bytes || !space.has_run(extent.address, sectors) {
                return Err(misfit_at(extent.address));
            }
            gone.push(*extent)?;
        }
    }
    Ok(gone)
}

/// References, or a run, are not what they should be at an address.
pub(crate) fn misfit_at(address: Address) -> BlockFault
    ensures { result ≡ Image Refs address }
{
    BlockFault::Image {
        rule: Rule::Refs,
        address,
    }
}
