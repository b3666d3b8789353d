use qg_node::{Header, Node, Pointer, Pointers};
use qg_num::{Address, Generation, Key, RootId};
use qg_owner_rule::linked_of;
use std::test::Fail;

#[test]
fn a_node_is_told_with_its_children_in_order(rt: HostRuntime) -> Result<(), Fail> {
    let header = Header {
        address: Address::new(1000),
        generation: Generation::new(3),
        owner: RootId::new(5),
        level: 1,
    };
    let mut pointers = Pointers::new(rt.alloc());
    for child in [4000, 3000] {
        pointers.push(Pointer {
            key: Key {
                objectid: child,
                kind: 1,
                offset: 0,
            },
            child: Address::new(child),
            generation: Generation::new(3),
        })?;
    }
    let told = linked_of(rt.alloc(), &Node::Inner { header, pointers }, true)?;
    assert!(rt; told.address == Address::new(1000) && told.level == 1);
    assert!(rt; told.owner == RootId::new(5) && told.full);
    assert!(rt; told.children.as_slice() == [Address::new(4000), Address::new(3000)].as_slice());
    Ok(())
}
