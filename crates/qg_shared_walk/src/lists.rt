// The lists over which the two rules are judged.
ghost use Rattle.std.specs.Prelude.{◌≡◌, ◌++◌, ◌∷◌, [], true, map, IfOk, OnOk};
ghost use Rattle.std.specs.List.{flat_map};
ghost use Rattle.std.specs.List.Sorted.{IsNonDecreasing};
ghost use Rattle.qg_backref_rule.specs.OwedLists.{owing_told, owings_told};
ghost use Rattle.qg_shared_walk.specs.NodeFacts.{told_by};
ghost use Rattle.qg_shared_walk.specs.Marked.{extent_thing, marked_owing, marked_reference, owed_where, root_owing};
ghost use Rattle.qg_shared_walk.specs.Marked.{surveyed_where, thing_where};

use crate::NodeRead;
use crate::full::is_full;
use crate::surveyed::addresses_of;
use qg_backref_rule::{Kind, Owing, Thing};
use qg_image::Element;
use qg_items::Reference;
use qg_num::{Address, NoMemory, RootId};
use qg_qgroup_counts::Surveyed;
use std::alloc::Global;

/// What is owed by nodes, what they are, and what they point to and name.
#[derive(Drop)]
pub(crate) struct Lists {
    pub owings: Vec<Owing>,
    pub things: Vec<Thing>,
    pub surveyed: Vec<Surveyed>,
}

/// The lists of nodes, some of which are full.
pub(crate) fn lists_of(
    alloc: Global,
    nodes: Vec<NodeRead>,
    full: &[Address],
) -> Result<Lists, NoMemory>
    requires { IsNonDecreasing full.now }
    ensures owings { IfOk result (λ lists.
        owings_told lists.owings.items ≡ flat_map (owed_where full.now) (map told_by nodes.items)) }
    ensures things { IfOk result (λ lists. lists.things.items ≡ map (thing_where full.now) (map told_by nodes.items)) }
    ensures surveyed { IfOk result (λ lists.
        lists.surveyed.items ≡ map (surveyed_where full.now) (map told_by nodes.items)) }
{
    let mut lists = Lists {
        owings: Vec::new(alloc),
        things: Vec::with_capacity(alloc, nodes.len())?,
        surveyed: Vec::with_capacity(alloc, nodes.len())?,
    };
    for node in nodes {
        add_node(alloc, node, full, &mut lists)?;
    }
    Ok(lists)
}

// Puts what is told of a node at the end of each list.
fn add_node(
    alloc: Global,
    node: NodeRead,
    full: &[Address],
    lists: &mut Lists,
) -> Result<(), NoMemory>
    requires { IsNonDecreasing full.now }
    ensures owings { OnOk result (owings_told lists.new.owings.items
        ≡ owings_told lists.old.owings.items ++ owed_where full.now (told_by node)) }
    ensures things { OnOk result (lists.new.things.items
        ≡ lists.old.things.items ++ thing_where full.now (told_by node) ∷ []) }
    ensures surveyed { OnOk result (lists.new.surveyed.items
        ≡ lists.old.surveyed.items ++ surveyed_where full.now (told_by node) ∷ []) }
{
    let NodeRead {
        mut linked,
        generation,
        owings,
        extents,
    } = node;
    let full = is_full(full, linked.address);
    add_owings(linked.address, full, owings, &mut lists.owings)?;
    lists.things.push(Thing {
        address: linked.address,
        kind: Kind::Node {
            level: linked.level,
            generation,
            full,
        },
    })?;
    linked.full = full;
    let extents = addresses_of(alloc, extents.as_slice())?;
    lists.surveyed.push(Surveyed { linked, extents })?;
    Ok(())
}

// Puts what a node at an address owes at the end, where it is full or isn't.
fn add_owings(
    parent: Address,
    full: bool,
    mut own: Vec<Owing>,
    owings: &mut Vec<Owing>,
) -> Result<(), NoMemory>
    ensures { OnOk result (owings_told owings.new.items
        ≡ owings_told owings.old.items ++ map (marked_owing parent full) (owings_told own.items)) }
{
    if full {
        return add_marked(parent, own.as_slice(), owings);
    }
    owings.append(&mut own)?;
    Ok(())
}

// Puts what a full node at an address owes at the end.
fn add_marked(parent: Address, own: &[Owing], owings: &mut Vec<Owing>) -> Result<(), NoMemory>
    ensures { OnOk result (owings_told owings.new.items
        ≡ owings_told owings.old.items ++ map (marked_owing parent true) (owings_told own.now)) }
{
    for owing in own {
        let marked = marked_owing(parent, owing);
        owings.push(marked)?;
    }
    Ok(())
}

// What a full node owes in place of what it owes where it isn't full: a shared reference from itself.
fn marked_owing(parent: Address, owing: &Owing) -> Owing
    ensures { owing_told result ≡ marked_owing parent true (owing_told owing.now) }
{
    Owing {
        address: owing.address,
        reference: shared_reference(parent, &owing.reference),
    }
}

// The shared reference from a parent that stands for a keyed one.
fn shared_reference(parent: Address, reference: &Reference) -> Reference
    ensures { result ≡ marked_reference parent reference.now }
{
    match reference {
        Reference::KeyedBlock { .. } | Reference::SharedBlock { .. } => Reference::SharedBlock {
            parent,
        },
        Reference::KeyedData { .. } | Reference::SharedData { .. } => Reference::SharedData {
            parent,
        },
    }
}

/// Puts what subvolumes owe their root nodes at the end, by number and the root's address in bytes.
pub(crate) fn add_roots(
    roots: &[(RootId, Address)],
    owings: &mut Vec<Owing>,
) -> Result<(), NoMemory>
    ensures { OnOk result (owings_told owings.new.items
        ≡ owings_told owings.old.items ++ map root_owing roots.now) }
{
    for root in roots {
        let reference = Reference::KeyedBlock { root: root.0 };
        owings.push(Owing {
            address: root.1,
            reference,
        })?;
    }
    Ok(())
}

/// Puts data extents at the end, as things.
pub(crate) fn add_extents(extents: &[Element], things: &mut Vec<Thing>) -> Result<(), NoMemory>
    ensures { OnOk result (things.new.items ≡ things.old.items ++ map extent_thing extents.now) }
{
    for extent in extents {
        things.push(Thing {
            address: extent.address,
            kind: Kind::Extent {
                bytes: extent.bytes,
            },
        })?;
    }
    Ok(())
}
