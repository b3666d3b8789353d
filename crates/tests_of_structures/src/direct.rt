ghost use Rattle.std.specs.Prelude.{◌≡◌, IfOk};

use qg_image::Element;
use qg_num::{Address, Counters, GroupId, NoMemory, RootId, Sequence};
use qg_owner_rule::Linked;
use qg_qgroup_counts::{Surveyed, group_counts};
use qg_qgroups::{HierFault, Hierarchy};
use std::alloc::Global;
use std::test::Fail;

// Some addresses.
fn addresses(alloc: Global, told: &[u64]) -> Result<Sequence<Address>, NoMemory> {
    let mut addresses = Sequence::new(alloc);
    for address in told {
        addresses.push(Address::new(*address))?;
    }
    Ok(addresses)
}

// A node with its children, or a leaf with the extents that it names.
fn node(
    alloc: Global,
    address: u64,
    level: u8,
    children: &[u64],
    extents: &[u64],
) -> Result<Surveyed, NoMemory>
    ensures { IfOk result (λ node. node.linked.address ≡ address) }
{
    Ok(Surveyed {
        linked: Linked {
            address: Address::new(address),
            level,
            owner: RootId::new(5),
            full: false,
            children: addresses(alloc, children)?,
        },
        extents: addresses(alloc, extents)?,
    })
}

// The counters of groups, where 5, 256 and 300 have roots at 1000, 2000 and 4000 and nodes of 16 bytes.
//
// That at 1000 has the leaf at 3000, that at 2000 the leaves at 3000 and 5000, and that at 4000 the leaves at 5000 and
// 6000. The extent at 10000 is named by the leaves at 3000 and 6000, that at 20000 twice by the leaf at 3000, and that
// at 30000 by the leaf at 6000. What the leaf at 5000 names is none of them.
fn counted(alloc: Global, hierarchy: &Hierarchy) -> Result<Vec<Counters>, NoMemory> {
    let nodes = [
        node(alloc, 1000, 1, &[3000], &[])?,
        node(alloc, 2000, 1, &[3000, 5000], &[])?,
        node(alloc, 3000, 0, &[], &[20000, 10000, 20000])?,
        node(alloc, 4000, 1, &[5000, 6000], &[])?,
        node(alloc, 5000, 0, &[], &[40000])?,
        node(alloc, 6000, 0, &[], &[10000, 30000])?,
    ];
    let roots = [
        (RootId::new(5), Address::new(1000)),
        (RootId::new(256), Address::new(2000)),
        (RootId::new(300), Address::new(4000)),
    ];
    let extents = [
        Element {
            address: Address::new(10000),
            bytes: 100,
        },
        Element {
            address: Address::new(20000),
            bytes: 20,
        },
        Element {
            address: Address::new(30000),
            bytes: 3,
        },
    ];
    group_counts(alloc, &roots, &nodes, 16, &extents, hierarchy)
}

// The group of a level and an id.
fn group(level: u64, id: u64) -> GroupId {
    GroupId::from_number(level.wrapping_mul(1 << 48).wrapping_add(id))
}

// 5, 256 and 300 have groups that are related to no other.
fn apart(alloc: Global) -> Result<Hierarchy, HierFault> {
    let mut hierarchy = Hierarchy::new(alloc);
    hierarchy.create(group(0, 5))?;
    hierarchy.create(group(0, 256))?;
    hierarchy.create(group(0, 300))?;
    Ok(hierarchy)
}

#[test]
fn without_groups_nothing_is_counted(rt: HostRuntime) -> Result<(), Fail> {
    let counters = counted(rt.alloc(), &Hierarchy::new(rt.alloc()))?;
    assert!(rt; counters.is_empty());
    Ok(())
}

#[test]
fn shared_leaves_and_extents_are_counted_for_each(rt: HostRuntime) -> Result<(), Fail> {
    let counters = counted(rt.alloc(), &apart(rt.alloc())?)?;
    let expected = [
        // Two nodes and two extents; its root alone is its own.
        Counters {
            rfer: 152,
            excl: 16,
        },
        // Three nodes and two extents; its root alone is its own.
        Counters {
            rfer: 168,
            excl: 16,
        },
        // Three nodes and two extents; its root, a leaf and an extent are its own.
        Counters {
            rfer: 151,
            excl: 35,
        },
    ];
    assert!(rt; counters.as_slice() == expected.as_slice());
    Ok(())
}

// 5 and 256 are members of 1/1, 256 and 300 of 1/2, and both groups of 2/1.
fn diamond(alloc: Global) -> Result<Hierarchy, HierFault> {
    let mut hierarchy = Hierarchy::new(alloc);
    hierarchy.create(group(0, 5))?;
    hierarchy.create(group(0, 256))?;
    hierarchy.create(group(0, 300))?;
    hierarchy.create(group(1, 1))?;
    hierarchy.create(group(1, 2))?;
    hierarchy.create(group(2, 1))?;
    hierarchy.assign(group(0, 5), group(1, 1))?;
    hierarchy.assign(group(0, 256), group(1, 1))?;
    hierarchy.assign(group(0, 256), group(1, 2))?;
    hierarchy.assign(group(0, 300), group(1, 2))?;
    hierarchy.assign(group(1, 1), group(2, 1))?;
    hierarchy.assign(group(1, 2), group(2, 1))?;
    Ok(hierarchy)
}

#[test]
fn a_diamond_counts_once(rt: HostRuntime) -> Result<(), Fail> {
    let counters = counted(rt.alloc(), &diamond(rt.alloc())?)?;
    let expected = [
        // Each subvolume's own group counts as the subvolume.
        Counters {
            rfer: 152,
            excl: 16,
        },
        Counters {
            rfer: 168,
            excl: 16,
        },
        Counters {
            rfer: 151,
            excl: 35,
        },
        // Four nodes and two extents; 300 reaches the leaf at 5000 and the extent at 10000 too.
        Counters {
            rfer: 184,
            excl: 68,
        },
        // Five nodes and three extents; 5 reaches the leaf at 3000 and the extents at 10000 and 20000 too.
        Counters {
            rfer: 203,
            excl: 67,
        },
        // All six nodes and three extents, though 256 is a member by two ways.
        Counters {
            rfer: 219,
            excl: 219,
        },
    ];
    assert!(rt; counters.as_slice() == expected.as_slice());
    Ok(())
}

// 256 has no group; 5 and 300 are members of 1/1.
fn without_a_group(alloc: Global) -> Result<Hierarchy, HierFault> {
    let mut hierarchy = Hierarchy::new(alloc);
    hierarchy.create(group(0, 5))?;
    hierarchy.create(group(0, 300))?;
    hierarchy.create(group(1, 1))?;
    hierarchy.assign(group(0, 5), group(1, 1))?;
    hierarchy.assign(group(0, 300), group(1, 1))?;
    Ok(hierarchy)
}

#[test]
fn without_a_group_a_subvolume_counts_for_none(rt: HostRuntime) -> Result<(), Fail> {
    let counters = counted(rt.alloc(), &without_a_group(rt.alloc())?)?;
    let expected = [
        Counters {
            rfer: 152,
            excl: 16,
        },
        Counters {
            rfer: 151,
            excl: 35,
        },
        // Five nodes and three extents; 256 reaches the leaves at 3000 and 5000 and the extents at 10000 and 20000 too.
        Counters {
            rfer: 203,
            excl: 51,
        },
    ];
    assert!(rt; counters.as_slice() == expected.as_slice());
    Ok(())
}
