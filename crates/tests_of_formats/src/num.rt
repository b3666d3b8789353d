ghost use Rattle.std.specs.Prelude.{◌≡◌, ◌+◌, ◌<◌};

use qg_num::{OwnerList, RootId, Steps};
use std::marker::Brand;
use std::sync::ledger::{Blank, Ledger};
use std::test::Fail;

// Counts by two ledgers.
fn count_apart<L: Ledger, M: Ledger>(first: Blank, second: Blank)
    requires first_name { first.name ≡ L.name }
    requires first_parts { first.parts ≡ L.parts }
    requires first_some { 0 < first.parts }
    requires second_name { second.name ≡ M.name }
    requires second_parts { second.parts ≡ M.parts }
    requires second_some { 0 < second.parts }
{
    let mut looks = Steps::<L>::new(first);
    let mut reads = Steps::<M>::new(second);
    step_twice_and_once(&mut looks, &mut reads);
}

fn step_twice_and_once<L: Ledger, M: Ledger>(looks: &mut Steps<L>, reads: &mut Steps<M>)
    ensures looks { looks.new ≡ looks.old + 2 }
    ensures reads { reads.new ≡ reads.old + 1 }
{
    looks.tick();
    reads.tick();
    looks.tick();
}

fn count_by_two_ledgers() {
    count_apart::<Brand, Brand>(Blank::new(1), Blank::new(1));
}

#[test]
fn counts_and_lists(rt: HostRuntime) -> Result<(), Fail> {
    count_by_two_ledgers();

    let mut owners = OwnerList::new(rt.alloc());
    assert!(rt; owners.is_empty());
    owners.push(RootId::new(5))?;
    assert!(rt; owners.len() == 1);
    assert!(rt; owners.as_slice().first().copied() == Some(RootId::new(5)));
    let mut others = OwnerList::new(owners.allocator());
    others.push(RootId::new(256))?;
    assert!(rt; others.as_slice().first().copied() == Some(RootId::new(256)));
    Ok(())
}

fn has_owners(owners: &OwnerList, numbers: &[u64]) -> bool {
    let mut owners = owners.as_slice().iter();
    for number in numbers {
        if owners.next().copied() != Some(RootId::new(*number)) {
            return false;
        }
    }
    owners.next().is_none()
}

#[test]
fn a_list_is_edited_in_place(rt: HostRuntime) -> Result<(), Fail> {
    let mut owners = OwnerList::with_capacity(rt.alloc(), 1)?;
    owners.push(RootId::new(5))?;
    owners.insert(0, RootId::new(257))?;
    owners.set(1, RootId::new(300));
    *owners.item_mut(0) = RootId::new(258);
    assert!(rt; has_owners(&owners, &[258, 300]));
    assert!(rt; owners.replace(1, RootId::new(259)) == RootId::new(300));
    assert!(rt; owners.remove(0) == RootId::new(258));
    assert!(rt; has_owners(&owners, &[259]));
    owners.remove_range(0, 1);
    assert!(rt; owners.is_empty());
    Ok(())
}

#[test]
fn a_list_is_copied_split_and_joined(rt: HostRuntime) -> Result<(), Fail> {
    let numbers = [5, 257, 258].map(RootId::new);
    let mut front = OwnerList::from_slice(rt.alloc(), &numbers)?;
    let mut back = front.split_off(1)?;
    assert!(rt; has_owners(&front, &[5]));
    assert!(rt; has_owners(&back, &[257, 258]));
    back.append(&mut front)?;
    assert!(rt; has_owners(&back, &[257, 258, 5]));
    assert!(rt; front.is_empty());
    back.insert_slice(1, &[RootId::new(300), RootId::new(301)])?;
    assert!(rt; has_owners(&back, &[257, 300, 301, 258, 5]));
    Ok(())
}
