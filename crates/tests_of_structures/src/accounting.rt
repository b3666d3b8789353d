ghost use Rattle.std.specs.Prelude.{◌≡◌, IfOk};
ghost use Rattle.qg_image.specs.Table.{keys_of};
ghost use Rattle.qg_qgroups.specs.Groups.{IsSound};

use qg_account::{CounterFault, update};
use qg_num::{Address, Counters, GroupId, OwnerList, RootId, Sequence};
use qg_qgroups::{HierFault, Hierarchy};
use qg_trace::Trace;
use std::alloc::Global;
use std::test::Fail;

#[test]
fn a_second_touch_changes_nothing(rt: HostRuntime) -> Result<(), Fail> {
    let mut trace = Trace::new(rt.alloc());
    trace.touch(Address::new(65536), 4096, OwnerList::new(rt.alloc()))?;
    trace.touch(Address::new(65536), 8192, OwnerList::new(rt.alloc()))?;
    assert!(rt; trace.has(Address::new(65536)));
    assert!(rt; !trace.has(Address::new(131072)));
    let taken = trace.take();
    let first = taken.entries().get(&65536);
    assert!(rt; first.is_some_and(|entry| entry.bytes == 4096));
    assert!(rt; trace.entries().is_empty());
    Ok(())
}

// The group of a level and an id.
fn group(level: u64, id: u64) -> GroupId {
    GroupId::from_number(level.wrapping_mul(1 << 48).wrapping_add(id))
}

// 5 and 256 are members of 1/1 and 1/2, and both groups of 2/1; 300 is a member of its own group alone.
fn diamond(alloc: Global) -> Result<Hierarchy, HierFault> {
    let mut hierarchy = Hierarchy::new(alloc);
    hierarchy.create(group(0, 5))?;
    hierarchy.create(group(0, 256))?;
    hierarchy.create(group(0, 300))?;
    hierarchy.create(group(1, 1))?;
    hierarchy.create(group(1, 2))?;
    hierarchy.create(group(2, 1))?;
    hierarchy.assign(group(0, 5), group(1, 1))?;
    hierarchy.assign(group(0, 256), group(1, 1))?;
    hierarchy.assign(group(0, 5), group(1, 2))?;
    hierarchy.assign(group(0, 256), group(1, 2))?;
    hierarchy.assign(group(1, 1), group(2, 1))?;
    hierarchy.assign(group(1, 2), group(2, 1))?;
    Ok(hierarchy)
}

// All groups, of which nothing is counted.
fn uncounted(
    alloc: Global,
    hierarchy: &Hierarchy,
) -> Result<Sequence<(GroupId, Counters)>, HierFault>
    ensures groups { IfOk result (λ counters. keys_of counters ≡ hierarchy.now.groups) }
    ensures sound { IfOk result (λ _. IsSound hierarchy.now) }
{
    let groups = hierarchy.groups()?;
    let mut counters = Sequence::new(alloc);
    for group in groups.as_slice() {
        counters.push((*group, Counters { rfer: 0, excl: 0 }))?;
    }
    Ok(counters)
}

// The counters of the groups 0/5, 0/256, 0/300, 1/1, 1/2 and 2/1 after 4096 bytes have come to have these owners.
#[test]
fn what_is_shared_in_a_group_is_exclusive_to_it(rt: HostRuntime) -> Result<(), Fail> {
    let hierarchy = diamond(rt.alloc())?;
    let mut counters = uncounted(rt.alloc(), &hierarchy)?;
    let five = [RootId::new(5)];
    let both = [RootId::new(5), RootId::new(256)];
    let all = [RootId::new(5), RootId::new(256), RootId::new(300)];

    update(rt.alloc(), &mut counters, &hierarchy, 4096, &[], &five)?;
    assert!(rt; counted(counters.as_slice()) == [1, 1, 0, 0, 0, 0, 1, 1, 1, 1, 1, 1]);
    update(rt.alloc(), &mut counters, &hierarchy, 4096, &five, &both)?;
    assert!(rt; counted(counters.as_slice()) == [1, 0, 1, 0, 0, 0, 1, 1, 1, 1, 1, 1]);
    update(rt.alloc(), &mut counters, &hierarchy, 4096, &both, &all)?;
    assert!(rt; counted(counters.as_slice()) == [1, 0, 1, 0, 1, 0, 1, 0, 1, 0, 1, 0]);
    update(rt.alloc(), &mut counters, &hierarchy, 4096, &all, &five)?;
    assert!(rt; counted(counters.as_slice()) == [1, 1, 0, 0, 0, 0, 1, 1, 1, 1, 1, 1]);
    Ok(())
}

#[test]
fn what_was_never_counted_cannot_go(rt: HostRuntime) -> Result<(), Fail> {
    let hierarchy = diamond(rt.alloc())?;
    let mut counters = uncounted(rt.alloc(), &hierarchy)?;
    let gone = update(
        rt.alloc(),
        &mut counters,
        &hierarchy,
        4096,
        &[RootId::new(5)],
        &[],
    );
    assert!(rt; gone == Err(CounterFault::Broken));
    Ok(())
}

// The two counters of each of the first six groups, in 4096 bytes.
fn counted(counters: &[(GroupId, Counters)]) -> [u64; 12] {
    let mut counted = [0; 12];
    for (i, entry) in counters.iter().take(6).enumerate() {
        counted[2 * i] = entry.1.rfer / 4096;
        counted[2 * i + 1] = entry.1.excl / 4096;
    }
    counted
}
