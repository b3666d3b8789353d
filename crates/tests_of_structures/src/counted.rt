ghost use Rattle.std.specs.Prelude.{◌≡◌, ◌<◌, length, IfOk};

use qg_num::{Address, Counters, NoMemory, RootId, Sequence};
use qg_owner_rule::Linked;
use qg_qgroup_counts::{Portion, Reached, SetId, group_counters, reached_from};
use std::alloc::Global;
use std::test::Fail;

// A node with its child.
fn node(alloc: Global, address: u64, level: u8, child: Option<u64>) -> Result<Linked, NoMemory>
    ensures { IfOk result (λ node. node.address ≡ address) }
{
    let mut children = Sequence::new(alloc);
    if let Some(child) = child {
        children.push(Address::new(child))?;
    }
    Ok(Linked {
        address: Address::new(address),
        level,
        owner: RootId::new(5),
        full: false,
        children,
    })
}

// The trees of 5 and 256, with roots at 1000 and 2000, share the leaf at 3000.
fn trees(alloc: Global) -> Result<Reached, NoMemory> {
    let nodes = [
        node(alloc, 1000, 1, Some(3000))?,
        node(alloc, 2000, 1, Some(3000))?,
        node(alloc, 3000, 0, None)?,
    ];
    let roots = [
        (RootId::new(5), Address::new(1000)),
        (RootId::new(256), Address::new(2000)),
    ];
    reached_from(alloc, &roots, &nodes)
}

// Some indices of groups.
fn places(alloc: Global, told: &[usize]) -> Result<Sequence<usize>, NoMemory>
    ensures { IfOk result (λ places. places ≡ told.now) }
{
    Ok(Sequence::from_slice(alloc, told)?)
}

// The counters of three groups by one node alone: two of one subvolume each, and one above both.
#[tactic(auto, using(qg_qgroup_counts::proofs::SetWeights::one_small))]
fn grouped_alone(
    alloc: Global,
    reached: &Reached,
    set: SetId,
    bytes: u64,
) -> Result<Vec<Counters>, NoMemory>
    requires { set < length reached.now.sets.rows.items }
{
    let portions = [Portion { bytes, set }];
    let above = [places(alloc, &[0, 2])?, places(alloc, &[1, 2])?];
    group_counters(alloc, reached, &portions, &above, 3)
}

// The three nodes have 100, 20 and 3 bytes.
#[test]
fn a_group_counts_what_its_members_reach(rt: HostRuntime) -> Result<(), Fail> {
    let reached = trees(rt.alloc())?;
    let sets = [reached.set_of(0), reached.set_of(1), reached.set_of(2)];
    let bytes = [100, 20, 3];
    let mut counters = [Counters { rfer: 0, excl: 0 }; 3];
    for (set, bytes) in sets.iter().zip(bytes.iter()) {
        if set.number() < reached.count() {
            let one = grouped_alone(rt.alloc(), &reached, *set, *bytes)?;
            for (sum, counted) in counters.iter_mut().zip(one.iter()) {
                sum.rfer = sum.rfer.wrapping_add(counted.rfer);
                sum.excl = sum.excl.wrapping_add(counted.excl);
            }
        }
    }
    let expected = [
        Counters {
            rfer: 103,
            excl: 100,
        },
        Counters { rfer: 23, excl: 20 },
        Counters {
            rfer: 123,
            excl: 123,
        },
    ];
    assert!(rt; counters.as_slice() == expected.as_slice());
    Ok(())
}
